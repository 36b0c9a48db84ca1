// What is proved of the scripts that the check accepts (LANGUAGE 7.4, 7.7): statements in specs/, their proofs in proofs/.
// There is no code here.
#![tactic(auto)]
