// What is judged of one term apart from those in it (LANGUAGE 3.17 to 3.27).
#![tactic(auto)]

pub mod terms; // terms.rt: what is judged of one term apart from those in it
