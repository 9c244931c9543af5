// The work area of an index build: `ValMap`s of the bank's rows and of the pairs' rows, template_decomposer.rs.
#![tactic(auto)]

pub mod inner;
