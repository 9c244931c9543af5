// What the crates above call with what they have tested.
ghost use Rattle.std.specs.Prelude.{◌≡◌, ◌≤◌, length};
ghost use Rattle.limits.specs.Refusal.{says};
ghost use Rattle.expr.specs.Formula.{tokens};
ghost use Rattle.expr_eval.specs.Value.{value_of, Evaluable};
ghost use Rattle.expr_eval.specs.Answers.{checked};

use expr::{MAX_TOKENS, Token};
use limits::Refusal;

// A formula of at most so many tokens goes over a stack of so many words: every stack is cleared first, and the longest formula's takes longer.
const FEW_TOKENS: usize = 16;

// A lent formula: the first `count` tokens of two arrays.
#[derive(Clone, Copy)]
pub struct Tokens<'a> {
    pub count: usize,
    pub ops: &'a [u8],
    pub operands: &'a [u64],
}

// The value of a formula that has passed the test, from left to right over a stack. What the stack holds before and after doesn't matter.
// Inlined, so that the three fields of a formula need not go through memory.
#[inline(always)]
#[tactic(auto, using(crate::proofs::Stack::stage_word, crate::proofs::Stack::stage_unary, crate::proofs::Stack::stage_binary, crate::proofs::Stack::stage_bad, crate::proofs::Stack::stage_left, crate::proofs::Stack::stage_end))]
pub fn eval_over(stack: &mut [u64], w: u32, f: &Tokens<'_>, words: &[u64]) -> u64
    requires { Evaluable w f.now.count f.now.ops.now f.now.operands.now words.now × (f.now.count ≤ length stack.old) }
    ensures { result ≡ value_of w words.now (tokens f.now.count f.now.ops.now f.now.operands.now) }
{
    let ops = f.ops;
    let operands = f.operands;
    let mut sp: usize = 0;
    for i in 0..f.count {
        let t = expr::token_at(ops, operands, i);
        match t {
            Token::Constant(k) => {
                stack[sp] = arith::reduce(k, w); // it may have more bits
                sp += 1;
            }
            Token::Variable(k) => {
                let at = k as usize;
                stack[sp] = arith::reduce(words[at], w);
                sp += 1;
            }
            Token::Binary(g) => {
                sp -= 1;
                let a = stack[sp - 1];
                let b = stack[sp];
                stack[sp - 1] = row_gates::inner::gate_apply_lane(a, b, g, w);
            }
            Token::Not => stack[sp - 1] = arith::mod_not(stack[sp - 1], w),
            Token::Neg => stack[sp - 1] = arith::mod_neg(stack[sp - 1], w),
            Token::Bad => return 0,
        }
    }
    stack[0]
}

// The same over a stack of its own, a short one for a short formula.
pub fn eval_tokens(w: u32, count: usize, ops: &[u8], operands: &[u64], words: &[u64]) -> u64
    requires { Evaluable w count ops.now operands.now words.now }
    ensures { result ≡ value_of w words.now (tokens count ops.now operands.now) }
{
    let f = Tokens {
        count,
        ops,
        operands,
    };
    if count <= FEW_TOKENS {
        let mut few = [0u64; FEW_TOKENS];
        return eval_over(&mut few, w, &f, words);
    }
    let mut stack = [0u64; MAX_TOKENS];
    eval_over(&mut stack, w, &f, words)
}

// ---- testing and evaluating in one pass, for a single evaluation

// The value of the tokens over a stack, or 6 where they are no formula over nv variables.
// Inlined, since a caller that reads the answer out of memory waits for its bytes, which were stored one by one.
#[inline(always)]
#[tactic(auto, using(crate::proofs::Checking::check_end, crate::proofs::Checking::check_left))]
fn eval_checked_over(
    stack: &mut [u64],
    nv: u32,
    w: u32,
    f: &Tokens<'_>,
    words: &[u64],
) -> Result<u64, Refusal>
    requires { (w ≤ 64) × ((nv ≤ length words.now) × ((1 ≤ f.now.count) × ((f.now.count ≤ 64) × (f.now.count ≤ length stack.old)))) }
    ensures { says result ≡ checked nv w f.now.count f.now.ops.now f.now.operands.now words.now }
{
    let ops = f.ops;
    let operands = f.operands;
    let mut sp: usize = 0;
    for i in 0..f.count {
        let t = expr::token_at(ops, operands, i);
        match t {
            Token::Constant(k) => {
                stack[sp] = arith::reduce(k, w);
                sp += 1;
            }
            Token::Variable(k) => {
                if nv as u64 <= k {
                    return Err(Refusal::Formula);
                }
                let at = k as usize;
                stack[sp] = arith::reduce(words[at], w);
                sp += 1;
            }
            Token::Binary(g) => {
                if sp < 2 {
                    return Err(Refusal::Formula);
                }
                sp -= 1;
                let a = stack[sp - 1];
                let b = stack[sp];
                stack[sp - 1] = row_gates::inner::gate_apply_lane(a, b, g, w);
            }
            Token::Not => {
                if sp < 1 {
                    return Err(Refusal::Formula);
                }
                stack[sp - 1] = arith::mod_not(stack[sp - 1], w);
            }
            Token::Neg => {
                if sp < 1 {
                    return Err(Refusal::Formula);
                }
                stack[sp - 1] = arith::mod_neg(stack[sp - 1], w);
            }
            Token::Bad => return Err(Refusal::Formula),
        }
    }
    if sp == 1 {
        Ok(stack[0])
    } else {
        Err(Refusal::Formula)
    }
}

// The same over a stack of its own, a short one for a short formula.
#[tactic(auto, using(crate::proofs::Checking::check_few, crate::proofs::Checking::check_many))]
pub fn eval_checked(
    nv: u32,
    w: u32,
    count: usize,
    ops: &[u8],
    operands: &[u64],
    words: &[u64],
) -> Result<u64, Refusal>
    requires { (w ≤ 64) × (nv ≤ length words.now) }
    ensures { says result ≡ checked nv w count ops.now operands.now words.now }
{
    if count < 1 {
        return Err(Refusal::Formula);
    }
    let f = Tokens {
        count,
        ops,
        operands,
    };
    if count <= FEW_TOKENS {
        let mut few = [0u64; FEW_TOKENS];
        return eval_checked_over(&mut few, nv, w, &f, words);
    }
    if MAX_TOKENS < count {
        return Err(Refusal::Formula);
    }
    let mut stack = [0u64; MAX_TOKENS];
    eval_checked_over(&mut stack, nv, w, &f, words)
}
