// What the exported functions of simjaldek are made of.
pub mod replies;
pub mod slices;
