// The first stage of the product search: every atom with every atom.
#![tactic(auto)]

pub mod inner;
