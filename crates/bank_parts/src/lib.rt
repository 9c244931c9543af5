// One atom's part of each of the bank's lent arrays: formula, cost and row of a slot, as `push` of template_decomposer.rs writes and compares them.
#![tactic(auto)]

pub mod inner;

// The cost numbers of an atom.
pub const COST_NUMBERS: usize = 3;

// A bank's five lent arrays.
#[derive(Drop)]
pub struct LentBank<'a> {
    pub lengths: &'a mut [u32],
    pub ops: &'a mut [u8],
    pub operands: &'a mut [u64],
    pub costs: &'a mut [u32],
    pub rows: &'a mut [u64],
}
