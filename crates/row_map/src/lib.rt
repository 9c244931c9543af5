// The map from rows to slots in a work area that the caller lends: `ValMap` of template_decomposer.rs.
#![tactic(auto)]

pub mod inner;

// The newest slot that has a row; or that none has it, and the chain that it belongs in. Neither is an error: as an entry of a map, taken or free.
#[derive(Clone, Copy, Debug, PartialEq, Eq)]
pub enum Lookup {
    At(u32),
    Free(u32),
}
