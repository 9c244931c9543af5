// What the crates above call with what they have tested.
ghost use Rattle.std.specs.Prelude.{◌≡◌, ℕ, ◌+◌, ◌-◌, ◌*◌, ◌%◌, ◌^◌, ◌≤◌, ◌<◌, length, get_or};
ghost use Rattle.arrays.specs.Parts.{part_at};
ghost use Rattle.expr.specs.Formula.{tokens};
ghost use Rattle.expr_eval.specs.Value.{value_alg, value_of};
ghost use Rattle.expr_rows.specs.Rows.{leaves, Takes, RowsReady};

use expr::Token;
use expr_eval::inner::Tokens;
use row_gates::{Gate, ROW_WORDS};

// Word i of each of sixteen records, modulo 2^w.
fn column(records: &[u64], nv: usize, i: usize, w: u32) -> [u64; 16]
    requires { (w ≤ 64) × ((i < nv) × ((nv ≤ 6) × (length records.now ≡ nv * 16))) }
    ensures { (j : ℕ) → j < 16 → get_or result j 0 ≡ get_or records.now (nv * j + i) 0 % 2 ^ w }
{
    let mut row = [0u64; ROW_WORDS];
    for j in 0..ROW_WORDS {
        row[j] = arith::reduce(records[nv * j + i], w);
    }
    row
}

// What a token leaves in each lane: `b` was on top of the stack, and `a` below it.
fn token_row(stack: &[u64], sp: usize, t: Token, w: u32, nv: usize, records: &[u64]) -> [u64; 16]
    requires { Takes w nv sp t stack.now records.now }
    ensures { (j : ℕ) → j < 16 → get_or result j 0 ≡ leaves (value_alg w (part_at nv records.now j)) t (get_or stack.now (16 * (sp - 2) + j) 0) (get_or stack.now (16 * (sp - 1) + j) 0) }
{
    match t {
        Token::Constant(k) => {
            let x = arith::reduce(k, w);
            [x; ROW_WORDS]
        }
        Token::Variable(k) => column(records, nv, k as usize, w),
        Token::Binary(g) => {
            let a = row_lent::inner::load_row(stack, sp - 2);
            let b = row_lent::inner::load_row(stack, sp - 1);
            row_gates::inner::gate_row(a, b, g, w)
        }
        Token::Not => {
            let b = row_lent::inner::load_row(stack, sp - 1);
            let most = arith::bitmask(w);
            row_gates::inner::residual_row([most; ROW_WORDS], b, Gate::Add, w)
        }
        Token::Neg => {
            let b = row_lent::inner::load_row(stack, sp - 1);
            row_gates::inner::residual_row([0; ROW_WORDS], b, Gate::Add, w)
        }
        Token::Bad => [0; ROW_WORDS],
    }
}

// The values, at sixteen records of nv words, of a formula that has passed the test. What the stack holds before and after doesn't matter.
#[tactic(auto, using(crate::proofs::Lanes::rows_low))]
pub fn eval_row(stack: &mut [u64], w: u32, nv: usize, f: &Tokens<'_>, records: &[u64]) -> [u64; 16]
    requires { RowsReady w nv f.now.count f.now.ops.now f.now.operands.now records.now stack.old }
    ensures { (j : ℕ) → j < 16 → get_or result j 0 ≡ value_of w (part_at nv records.now j) (tokens f.now.count f.now.ops.now f.now.operands.now) }
{
    let ops = f.ops;
    let operands = f.operands;
    let mut sp: usize = 0;
    for i in 0..f.count {
        let t = expr::token_at(ops, operands, i);
        let row = token_row(stack, sp, t, w, nv, records);
        let base = sp - expr::takes(t);
        row_lent::inner::put_row(stack, base, row);
        sp = base + 1;
    }
    row_lent::inner::load_row(stack, 0)
}
