// The row of a formula at sixteen points, from template_decomposer.rs.
#![tactic(auto)]

ghost use Rattle.std.specs.Prelude.{◌≡◌, true, ◌≤◌};
ghost use Rattle.limits.specs.Refusal.{says};
ghost use Rattle.expr.specs.Formula.{tokens, is_formula};
ghost use Rattle.expr_eval.specs.Value.{value_of};
ghost use Rattle.probe.specs.FormulaRow.{row_of, probed};

use limits::Refusal;
use probe_points::{POINTS, Point};

// The row of a formula: its value at each of the sixteen points. Refuses 1, 2, 4, 6.
pub fn probe(
    nv: u32,
    w: u32,
    points: [Point; 16],
    token_count: usize,
    ops: &[u8],
    operands: &[u64],
) -> Result<[u64; 16], Refusal>
    ensures { says result ≡ probed nv w points token_count ops.now operands.now }
{
    if limits::inner::bad_count(nv) {
        return Err(Refusal::VariableCount);
    }
    if limits::inner::bad_width(w) {
        return Err(Refusal::Width);
    }
    if expr::inner::too_short(token_count, ops, operands) {
        return Err(Refusal::ShortArray);
    }
    if !expr::is_formula(nv, token_count, ops, operands) {
        return Err(Refusal::Formula);
    }
    Ok(row_at_points(w, points, token_count, ops, operands))
}

// The value of a formula at one point. It passed the test with at most six variables, and a point has six words.
fn value_at(w: u32, p: Point, count: usize, ops: &[u8], operands: &[u64]) -> u64
    requires { (w ≤ 64) × (is_formula 6 (tokens count ops.now operands.now) ≡ true) }
    ensures { result ≡ value_of w p.words (tokens count ops.now operands.now) }
{
    let words = p.words;
    expr_eval::inner::eval_tokens(w, count, ops, operands, &words)
}

// The value at each of the sixteen points.
fn row_at_points(
    w: u32,
    points: [Point; 16],
    count: usize,
    ops: &[u8],
    operands: &[u64],
) -> [u64; 16]
    requires { (w ≤ 64) × (is_formula 6 (tokens count ops.now operands.now) ≡ true) }
    ensures { result ≡ row_of w points (tokens count ops.now operands.now) }
{
    let mut row = [0u64; POINTS];
    for k in 0..POINTS {
        row[k] = value_at(w, points[k], count, ops, operands);
    }
    row
}
