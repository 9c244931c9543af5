// Atoms by value: a formula of at most six tokens with its cost and its row; the seeds.
#![tactic(auto)]

pub mod inner;

ghost use Rattle.std.specs.Prelude.{◌≡◌};
ghost use Rattle.expr.specs.Formula.{opcode_of};
ghost use Rattle.bank_atom.specs.Entry.{unary_token};

use expr_cost::Cost;

// The most tokens of an atom's formula.
pub const ATOM_TOKENS: usize = 6;

// What stands in an unused place of the opcodes.
pub const UNUSED: u8 = 255;

// The most nonzero words of the target that are seeded, after its OR.
pub const SEED_WORDS: u32 = 7;

// A formula in six places; unused ones hold opcode 255 and operand 0.
#[derive(Clone, Copy)]
pub struct Formula {
    pub len: u32,
    pub ops: [u8; 6],
    pub operands: [u64; 6],
}

// An atom: its formula, its cost and its row.
#[derive(Clone, Copy)]
pub struct Entry {
    pub text: Formula,
    pub cost: Cost,
    pub row: [u64; 16],
}

// The two tokens of one operand.
#[derive(Clone, Copy)]
pub enum Unary {
    Neg,
    Not,
}

// The opcode of each.
impl From<Unary> for u8 {
    ghost from_gives = { λ u n. n ≡ opcode_of (unary_token u) };

    fn from(u: Unary) -> u8 {
        match u {
            Unary::Neg => 8,
            Unary::Not => 7,
        }
    }
}

// The words that are pushed as constants, at most eight: the target's OR and seven of its words.
#[derive(Clone, Copy)]
pub struct Seeds {
    pub count: u32,
    pub words: [u64; 8],
}
