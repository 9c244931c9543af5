// How much of each thing there may be, and the refusals of 01's table.
#![tactic(auto)]

pub mod inner;

ghost use Rattle.std.specs.Prelude.{◌≡◌};
ghost use Rattle.limits.specs.Refusal.{number_of};

use std::error::Error;
use std::fmt;

// The most variables of a formula, and bits of a word.
pub const MAX_VARS: u32 = 6;

pub const MAX_WIDTH: u32 = 64;

// The most atoms of a bank, and the most pairs of an index.
pub const ATOMS_MAX: usize = 479;

pub const PAIRS_MAX: usize = 262_144;

// Why a call turns its input back: 01's table "Turned back" with the rows that 02 adds, in its order. Of those that apply a call tells the first.
#[derive(Clone, Copy, Debug, PartialEq, Eq)]
pub enum Refusal {
    VariableCount,
    Width,
    Limit,
    ShortArray,
    LargeWord,
    Formula,
    Claim,
    Order,
    Text,
    Window,
    Ranks,
}

// Its number in the table, by which C and the programs' texts know it.
impl From<Refusal> for u32 {
    ghost from_gives = { λ r n. n ≡ number_of r };

    fn from(refusal: Refusal) -> u32 {
        match refusal {
            Refusal::VariableCount => 1,
            Refusal::Width => 2,
            Refusal::Limit => 3,
            Refusal::ShortArray => 4,
            Refusal::LargeWord => 5,
            Refusal::Formula => 6,
            Refusal::Claim => 7,
            Refusal::Order => 8,
            Refusal::Text => 9,
            Refusal::Window => 10,
            Refusal::Ranks => 11,
        }
    }
}

impl fmt::Display for Refusal {
    fn fmt<W: fmt::Write>(&self, f: &mut fmt::Formatter<W>) -> fmt::Result {
        f.write_str(match self {
            Refusal::VariableCount => "the variable count is not 1 to 6",
            Refusal::Width => "the width is not 1 to 64",
            Refusal::Limit => "the limit is too large",
            Refusal::ShortArray => "a lent array is too short",
            Refusal::LargeWord => "a word is not below 2 to the width",
            Refusal::Formula => "the tokens are no formula",
            Refusal::Claim => "more is claimed than there can be",
            Refusal::Order => "the order list is not that of the rows",
            Refusal::Text => "the text is not the numbers that are asked for",
            Refusal::Window => "a rule counts over 1 to 64 records, and asks for 1 to as many",
            Refusal::Ranks => "a log has one to eight rules of different ranks, 1 to 8",
        })
    }
}

impl Error for Refusal {}
