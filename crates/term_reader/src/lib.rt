// Reading terms and blocks of a script's bytes into term rows (LANGUAGE 2.2 to 2.9, 5.10, 5.11).
#![tactic(auto)]

mod operands; // operands.rt: the operands after a kind byte, and the row that they fill
pub mod terms; // terms.rt: terms and blocks in bytes
