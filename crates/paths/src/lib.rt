// Following a place (LANGUAGE 3.13 to 3.15), what the rules ask of a variable number (3.6 to 3.8), and how a block's variables
// leave scope (3.28).
#![tactic(auto)]

pub mod environment; // environment.rt: what the rules ask of a variable number, and leaving scope
pub mod follow; // follow.rt: following a place
