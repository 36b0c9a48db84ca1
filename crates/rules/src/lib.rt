// The ownership rules (LANGUAGE 3.16, 3.19 to 3.24, 3.27 to 3.29), one function for each, over a table of the variables that
// the caller lends. Assign is in crate `assigns`, the branches of a choice in `choices`.
#![tactic(auto)]

pub mod rules; // rules.rt: the rules
