// Rows in a lent array, by slot: loaded, written, compared; and the test whether a row's word reaches 2^w.
#![tactic(auto)]

pub mod inner;

// 01's slots: an atom's number in the bank and a pair's number in the index, never taken for one another.
#[derive(Clone, Copy, Debug, PartialEq, Eq)]
pub struct AtomSlot(pub u32);

#[derive(Clone, Copy, Debug, PartialEq, Eq)]
pub struct PairSlot(pub u32);
