// The reader of formulas: a few thin functions over a struct that holds the slices. The work is left to `step`, over plain slices; every other
// caller goes through `token_at`.
ghost use Rattle.std.specs.Prelude.{◌≡◌};
ghost use Rattle.expr.specs.Formula.{token_at};

use crate::Token;

// 01, From heap ..: "every formula is read from left to right through a small reader"; Expected forms by place: "a struct holding the opcode
// slice and a position, few thin functions". The operands lie beside the opcodes, so it holds both slices.
#[derive(Drop)]
pub struct Reader<'a, 'b> {
    pub ops: &'a [u8],
    pub operands: &'b [u64],
    pub at: usize,
}

// A reader that stands at a place of a formula.
pub fn new<'a, 'b>(ops: &'a [u8], operands: &'b [u64], at: usize) -> Reader<'a, 'b>
    ensures { (result.ops ≡ ops.entry) × (result.operands ≡ operands.entry) × (result.at ≡ at) }
{
    Reader { ops, operands, at }
}

// The token at the reader's place.
pub fn next<'a, 'b>(r: Reader<'a, 'b>) -> Token
    ensures { result ≡ token_at r.entry.ops.now r.entry.operands.now r.entry.at }
{
    step(r.ops, r.operands, r.at)
}

// The work: the token at a place of the two arrays, `Bad` past the end of either.
#[tactic(auto, unfolding(crate::specs::Formula::token_at))]
fn step(ops: &[u8], operands: &[u64], at: usize) -> Token
    ensures { result ≡ token_at ops.now operands.now at }
{
    if ops.len() <= at {
        return Token::Bad;
    }
    if operands.len() <= at {
        return Token::Bad;
    }
    crate::token_of(ops[at], operands[at])
}
