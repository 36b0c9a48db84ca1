// The rule of assign (LANGUAGE 3.25).
#![tactic(auto)]

pub mod assign; // assign.rt: the rule of assign
