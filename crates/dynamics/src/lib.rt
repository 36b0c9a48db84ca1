// The run rules (LANGUAGE 4) as definitions, and theorems about them. There is no code here.
#![tactic(auto)]
