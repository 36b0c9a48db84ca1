// The last uses of the variables (LANGUAGE 3.32 to 3.34), and what is barred.
#![tactic(auto)]

pub mod row; // row.rt: the places in a term row
pub mod script; // script.rt: what is lent down while a script is judged
pub mod uses; // uses.rt: the last uses of the variables, and what is barred
