// The terms without an inner term (LANGUAGE 4.9 to 4.12, 4.16), what follows an inner term (4.13 to 4.15), the end of a
// block (4.17), and the block of a choice that does not run (4.23).
#![tactic(auto)]

pub mod plain; // plain.rt: the terms without an inner term
pub mod around; // around.rt: what follows an inner term
pub mod skip; // skip.rt: the block of a choice that does not run
