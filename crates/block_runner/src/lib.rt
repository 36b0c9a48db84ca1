// Running terms, blocks and choices (LANGUAGE 4.17, 4.23).
#![tactic(auto)]

pub mod terms; // terms.rt: terms and blocks
