// The program's line of a call (LANGUAGE 6.9 to 6.11), put into a buffer.
#![tactic(auto)]

mod line; // line.rt: the line of an answer
pub mod report; // report.rt: the program's report
