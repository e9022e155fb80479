// Reading the canonical form back gives the same events, and equal forms mean equal events. There is no code here: see specs/ and proofs/.
#![tactic(auto)]
