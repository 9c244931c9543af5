// The bank as a list of atoms: its definition, its arrays, and the theorems on it. There is no code.
#![tactic(auto)]
