// The bytes of a script, from its term rows (LANGUAGE 6.4).
#![tactic(auto)]

pub mod output; // output.rt: the bytes of a script, from its term rows
