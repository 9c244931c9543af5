// The product filter: the places of an order list whose first words are of one residue class, in order. The keys are looked up by binary
// search: template_decomposer.rs, `collect_mul_probe0_candidates`, has buckets for them.
#![tactic(auto)]

pub mod inner;
