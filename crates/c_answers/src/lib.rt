// Answers in C's form: numbers in the fields of structs.
#![tactic(auto)]

pub mod answers; // answers.rt: answers in C's form
