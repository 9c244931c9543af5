// The second stage of the product search, template_decomposer.rs, `layer2`'s product loop: every atom with every listed pair, by the filter where it is used.
#![tactic(auto)]

pub mod inner;
