// The trials of an index build: the loops of `build_inner_compositions`, template_decomposer.rs.
#![tactic(auto)]

pub mod inner;
