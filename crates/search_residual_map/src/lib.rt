// The map of the residual rows of a search: rows are looked up in it, so that one pass over a bank or an index serves all atoms under both outer gates.
#![tactic(auto)]

pub mod inner;

// The entry of a residual row, which is its number plus one, and the least slot that has it; entry 0 where none was found: it ends the map's chains, and is
// below every other, so that a pass needs one comparison.
#[derive(Clone, Copy)]
pub struct First {
    pub at: u32,
    pub slot: u32,
}
