// The values of a formula at sixteen records at once, token after token over a stack of rows.
#![tactic(auto)]

pub mod inner;

// The words of the stack: a row of sixteen for each token of the longest formula.
pub const STACK_WORDS: usize = 1024;
