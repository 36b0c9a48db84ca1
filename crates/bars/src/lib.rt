// What the borrows that are held bar (LANGUAGE 3.10 to 3.12, 3.34).
#![tactic(auto)]

pub mod bars; // bars.rt: what the borrows that are held bar
