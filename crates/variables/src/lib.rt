// The table of the variables that the caller lends (LANGUAGE 3.8): chains of links (3.2), sets of variables (3.3), the words
// of an entry, and verdicts (3.17).
#![tactic(auto)]

pub mod chains; // chains.rt: a chain of links in one number
pub mod roots; // roots.rt: sets of variable numbers
pub mod table; // table.rt: the table's words, and the state of a variable that they hold
pub mod verdicts; // verdicts.rt: what judging a term answers
