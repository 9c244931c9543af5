// One trial of the residual search: what is tried, in 02's order, and whether it hits.
#![tactic(auto)]

pub mod inner;
