// What the answer of a residual search means: 02's promises as statements, and their proofs. There is no code.
#![tactic(auto)]
