// The order list of the pair index: `mul_probe0_buckets` of template_decomposer.rs as one sorted list of slots.
#![tactic(auto)]

pub mod inner;
