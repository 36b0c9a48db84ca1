// Judging term rows (LANGUAGE 5.12, 5.13): terms and blocks in rows, and what stands after them.
#![tactic(auto)]

pub mod rows; // rows.rt: terms and blocks in term rows, and what stands after them
