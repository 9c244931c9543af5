// The value of a formula. From evaluator.rs.
#![tactic(auto)]

pub mod inner;

ghost use Rattle.std.specs.Prelude.{◌≡◌};
ghost use Rattle.limits.specs.Refusal.{says};
ghost use Rattle.expr_eval.specs.Answers.{evaluated};

use limits::Refusal;

// The value of a formula at the given words, modulo 2^w. Refuses 1, 2, 4, 6.
pub fn eval(
    nv: u32,
    w: u32,
    token_count: usize,
    ops: &[u8],
    operands: &[u64],
    words: &[u64],
) -> Result<u64, Refusal>
    ensures { says result ≡ evaluated nv w token_count ops.now operands.now words.now }
{
    if limits::inner::bad_count(nv) {
        return Err(Refusal::VariableCount);
    }
    if limits::inner::bad_width(w) {
        return Err(Refusal::Width);
    }
    if expr::inner::too_short(token_count, ops, operands) {
        return Err(Refusal::ShortArray);
    }
    if words.len() < nv as usize {
        return Err(Refusal::ShortArray);
    }
    if !expr::is_formula(nv, token_count, ops, operands) {
        return Err(Refusal::Formula);
    }
    Ok(inner::eval_tokens(w, token_count, ops, operands, words))
}
