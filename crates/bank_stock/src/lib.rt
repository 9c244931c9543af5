// The stock of formulas, one after the other by a cursor.
#![tactic(auto)]

pub mod inner;

// A place in the stock: constant k; form k of variable i; gate k of variables i ≤ j; variable i minus variable j. An enum and no iterator: the places nest in
// three ways, and the proof of the walk goes by them.
#[derive(Clone, Copy)]
pub enum Cursor {
    Constant(u32),
    Variable(u32, u32),
    Pair(u32, u32, u32),
    Difference(u32, u32),
    Done,
}
