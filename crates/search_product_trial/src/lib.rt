// One trial of the product search: what is tried, in 01's order, and whether it fits.
#![tactic(auto)]

pub mod inner;
