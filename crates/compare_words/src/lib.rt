// Lines about words, points, fingerprints and gates on rows. crates/compare/data/probe.txt tells what stands in them.
#![tactic(auto)]

ghost use Rattle.std.specs.Prelude.{◌+◌, ◌≤◌, length};

use compare_lines::inner::words_same;
use compare_lines::{narrow, refusal_of};
use limits::Refusal;
use row_gates::{Gate, ROW_WORDS};

// 1 STATE NEXT WORD
pub fn splitmix64_same(line: &[u64]) -> bool {
    if line.len() != 4 {
        return false;
    }
    let d = probe_points::splitmix64(line[1]);
    d.state == line[2] && d.word == line[3]
}

// 2 NV W REFUSAL, then six words of each point
pub fn points_same(line: &[u64]) -> bool {
    if line.len() != 100 {
        return false;
    }
    let made = probe_points::make_probe_points(narrow(line[1]), narrow(line[2]));
    if made.refusal as u64 != line[3] {
        return false;
    }
    for k in 0..16 {
        if !point_same(made.points[k], line, 4 + 6 * k) {
            return false;
        }
    }
    true
}

fn point_same(p: probe_points::Point, line: &[u64], base: usize) -> bool
    requires { base + 6 ≤ length line.now }
{
    words_same(&p.words, line, base)
}

// 3, a row, F
pub fn fingerprint_same(line: &[u64]) -> bool {
    if line.len() != 18 {
        return false;
    }
    row_fingerprint::fingerprint(compare_lines::inner::row_at(line, 1)) == line[17]
}

// The refusal at place 3, and the answer's row from place 36 on: zeros where there is none.
fn row_answer_is(r: Result<[u64; 16], Refusal>, line: &[u64]) -> bool
    requires { 52 ≤ length line.now }
{
    let row = r.unwrap_or([0; ROW_WORDS]);
    refusal_of(r) == line[3] && words_same(&row, line, 36)
}

// GATE W REFUSAL, the two rows that `call` takes and its answer
fn rows_same<F>(line: &[u64], call: F) -> bool
where
    F: Fn([u64; 16], [u64; 16], Gate, u32) -> Result<[u64; 16], Refusal>,
    requires { F.IsAlwaysCallable call }
{
    if line.len() != 52 {
        return false;
    }
    let Ok(g) = Gate::try_from(narrow(line[1])) else {
        return false;
    };
    let r = call(
        compare_lines::inner::row_at(line, 4),
        compare_lines::inner::row_at(line, 20),
        g,
        narrow(line[2]),
    );
    row_answer_is(r, line)
}

// 4 GATE W REFUSAL, rows a, b and the answer
pub fn gate_same(line: &[u64]) -> bool {
    rows_same(line, |a, b, g, w| row_gates::gate_apply(a, b, g, w))
}

// 5 GATE W REFUSAL, rows target, a and the answer
pub fn residual_same(line: &[u64]) -> bool {
    rows_same(
        line,
        |target, a, g, w| row_gates::gate_residual(target, a, g, w),
    )
}

// 6 GATE W REFUSAL YES, rows a, b and target
pub fn matches_same(line: &[u64]) -> bool {
    if line.len() != 53 {
        return false;
    }
    let Ok(g) = Gate::try_from(narrow(line[1])) else {
        return false;
    };
    let m = row_gates::gate_matches(
        compare_lines::inner::row_at(line, 5),
        compare_lines::inner::row_at(line, 21),
        compare_lines::inner::row_at(line, 37),
        g,
        narrow(line[2]),
    );
    refusal_of(m) == line[3] && u64::from(m.unwrap_or(false)) == line[4]
}

// 7 W MASK
pub fn bitmask_same(line: &[u64]) -> bool {
    if line.len() != 3 {
        return false;
    }
    arith::bitmask(narrow(line[1])) == line[2]
}

// 8 M K R
pub fn inverse_same(line: &[u64]) -> bool {
    if line.len() != 4 {
        return false;
    }
    arith::mod_inverse_odd(line[1], narrow(line[2])) == line[3]
}
