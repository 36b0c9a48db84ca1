// The two blocks of a choice (LANGUAGE 3.31).
#![tactic(auto)]

pub mod choice; // choice.rt: the two blocks of a choice
