// 01's bench sheet as one statement about the definitions: specs/Sheet, proved in proofs/Proved. There is no code.
#![tactic(auto)]
