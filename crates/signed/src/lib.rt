// Signed numbers and their bits (LANGUAGE 4.9, 4.16).
#![tactic(auto)]

pub mod signed; // signed.rt: signed numbers and their bits
