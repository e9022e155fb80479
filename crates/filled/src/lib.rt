// What the three tables hold after a reading, for the jobs above it. There is no code here: see proofs/.
#![tactic(auto)]
