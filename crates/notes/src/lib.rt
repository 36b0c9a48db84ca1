// Storing a variable's state (LANGUAGE 3.8), as a let, an assign and a choice give it and a move changes it (3.20, 3.24, 3.25,
// 3.31), and what the table notes beside the states, for what is held and barred (3.10 to 3.12), which these functions keep right.
#![tactic(auto)]

pub mod notes; // notes.rt: storing states, and what the table notes beside them
