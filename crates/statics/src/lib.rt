// The ownership rules (LANGUAGE 3) as definitions, and theorems about them. There is no code here.
#![tactic(auto)]
