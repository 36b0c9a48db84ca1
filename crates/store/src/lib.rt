// The lent store (LANGUAGE 4.1): its rows, locating a place (4.6), dropping values (4.8) and closing variables (4.18).
#![tactic(auto)]

mod numbers; // numbers.rt: the numbers in the store's rows
pub mod store; // store.rt: the rows of the lent store
pub mod locate; // locate.rt: locating a place and reading rows
pub mod drops; // drops.rt: dropping values and closing variables
