// The grammar of 004 with 01's rules, and that reading accepts exactly what it derives. There is no code here: see specs/ and proofs/.
#![tactic(auto)]
