// One trial of an index build: the innermost step of `build_inner_compositions`, template_decomposer.rs.
#![tactic(auto)]

pub mod inner;
