// The pair index as a list of pairs: its definition, its arrays, and the theorems on it. There is no code but a number.
#![tactic(auto)]

// The words of a pair: gate, b and c.
pub const PAIR_WORDS: usize = 3;
