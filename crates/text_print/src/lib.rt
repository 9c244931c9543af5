// The programs' output, as text in a lent buffer.
#![tactic(auto)]

pub mod inner;
