// The steps of a draw, and its refusals.
ghost use Rattle.std.specs.Prelude.{◌≡◌, map, ◌+◌, ◌≤◌, ◌<◌, length, set};
ghost use Rattle.limits.specs.Refusal.{refusal_of};
ghost use Rattle.expr.specs.Formula.{opcode_of, operand_of};
ghost use Rattle.arrays.specs.Lists.{laid};
ghost use Rattle.load_draw.specs.Draw.{takes, picked_by, token_from, state_from, rest_from, formula_from, bad_limit, draw_refusal, counted};
ghost use Rattle.load_draw.specs.Steps.{Ready};

use crate::DrawnFormula;
use expr::MAX_TOKENS;
use limits::Refusal;

// Whether a token limit is not 1 to 64: refusal 6.
pub fn bad_limit(limit: usize) -> bool
    ensures { result ≡ bad_limit limit }
{
    limits::inner::outside(limit as u64, 1, MAX_TOKENS as u64)
}

// Whether a call is refused. 6 and 4 exclude each other: 4 is for a limit of 1 to 64.
pub fn check(ops: &[u8], operands: &[u64], nv: u32, w: u32, limit: usize) -> Result<(), Refusal>
    ensures { refusal_of result ≡ draw_refusal nv w limit ops.now operands.now }
{
    if limits::inner::bad_count(nv) {
        return Err(Refusal::VariableCount);
    }
    if limits::inner::bad_width(w) {
        return Err(Refusal::Width);
    }
    if bad_limit(limit) {
        return Err(Refusal::Formula);
    }
    if expr::inner::too_short(limit, ops, operands) {
        return Err(Refusal::ShortArray);
    }
    Ok(())
}

// The length, and then the tokens.
pub fn draw(
    ops: &mut [u8],
    operands: &mut [u64],
    state: u64,
    nv: u32,
    w: u32,
    limit: usize,
) -> DrawnFormula
    requires { Ready nv w limit ops.old operands.old }
    ensures value { result ≡ counted (formula_from nv w limit state) }
    ensures ops_after { ops.new ≡ laid (map opcode_of (formula_from nv w limit state).form) ops.old }
    ensures operands_after { operands.new ≡ laid (map operand_of (formula_from nv w limit state).form) operands.old }
{
    let first = probe_points::splitmix64(state);
    let count = 1 + (first.word % (limit as u64)) as usize;
    let last = draw_tokens(ops, operands, first.state, nv, w, count);
    DrawnFormula { count, state: last }
}

// All tokens, left to right; `depth` values are on the stack. Answers the state after them.
fn draw_tokens(
    ops: &mut [u8],
    operands: &mut [u64],
    state: u64,
    nv: u32,
    w: u32,
    count: usize,
) -> u64
    requires { Ready nv w count ops.old operands.old }
    ensures value { result ≡ (rest_from nv w count 0 state).state }
    ensures ops_after { ops.new ≡ laid (map opcode_of (rest_from nv w count 0 state).form) ops.old }
    ensures operands_after { operands.new ≡ laid (map operand_of (rest_from nv w count 0 state).form) operands.old }
{
    let mut s = state;
    let mut depth: usize = 0;
    for i in 0..count {
        let x = probe_points::splitmix64(s);
        let o = pick(x.word, depth, count - i - 1);
        ops[i] = o;
        s = put_operand(operands, x.state, i, o, nv, w);
        depth = depth + 1 - takes_of(o);
    }
    s
}

// The opcode that a word picks, with `depth` values before the token and `rest` tokens after it. With fewer than two values there is no gate, and
// with none only a leaf; a leaf is one value more, which must still go.
fn pick(word: u64, depth: usize, rest: usize) -> u8
    requires { (depth ≤ rest + 2) × (rest < 64) }
    ensures { result ≡ picked_by depth rest word }
{
    if depth == 0 {
        return (word % 2) as u8;
    }
    if depth == 1 {
        return pick_above_one(word, rest);
    }
    if depth <= rest {
        return (word % 9) as u8;
    }
    if depth == rest + 1 {
        return 2 + (word % 7) as u8;
    }
    2 + (word % 5) as u8
}

// With one value: a leaf, where there are tokens to come, or Not or Neg.
fn pick_above_one(word: u64, rest: usize) -> u8
    requires { rest < 64 }
    ensures { result ≡ picked_by 1 rest word }
{
    if rest == 0 {
        return 7 + (word % 2) as u8;
    }
    let k = (word % 4) as u8;
    if k < 2 {
        return k;
    }
    k + 5
}

// How many values the token of an opcode takes.
fn takes_of(o: u8) -> usize
    requires { o < 9 }
    ensures { result ≡ takes o }
{
    if o < 2 {
        return 0;
    }
    if o < 7 {
        return 2;
    }
    1
}

// Lays the operand of token i, whose opcode was drawn before state s, and answers the state after the token.
fn put_operand(operands: &mut [u64], s: u64, i: usize, o: u8, nv: u32, w: u32) -> u64
    requires { (i < length operands.old) × (1 ≤ nv) × (w ≤ 64) × (o < 9) }
    ensures value { result ≡ state_from o s }
    ensures operands_after { operands.new ≡ set operands.old i (operand_of (token_from nv w o s)) }
{
    if 1 < o {
        operands[i] = 0;
        return s;
    }
    let x = probe_points::splitmix64(s);
    if o == 0 {
        operands[i] = arith::reduce(x.word, w);
        return x.state;
    }
    operands[i] = x.word % (nv as u64);
    x.state
}
