// The canonical form of an extract, as a definition on its events alone. There is no code here: see specs/ and proofs/.
#![tactic(auto)]
