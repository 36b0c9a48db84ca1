// Reading a whole script (LANGUAGE 2.1, 5.9): mark, version, outermost term, and what is left.
#![tactic(auto)]

mod reader; // reader.rt: the reader of a script in its named form
pub mod script; // script.rt: a whole script in bytes
