// Judging terms, blocks and the whole script (LANGUAGE 3.1, 3.28, 3.29, 3.31).
#![tactic(auto)]

mod judge; // judge.rt: terms, blocks and the whole script
pub mod tables; // tables.rt: the tables of the variables, in two sizes
