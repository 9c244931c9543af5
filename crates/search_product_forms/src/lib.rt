// The formulas of a lent bank and index: their tests, and their costs worked out from the tokens.
#![tactic(auto)]

pub mod inner;
