// The phases of a bank build, one after the other: the stock and the turns of `populate`, then the seeds of `try_template_decomposition`
// (template_decomposer.rs). The turns themselves are in bank_unary.
#![tactic(auto)]

pub mod inner;
