// The variables that a formula reads, as a set of one byte: bit i for variable i. What holds of every formula's set stands in specs/.
#![tactic(auto)]

pub mod inner;
