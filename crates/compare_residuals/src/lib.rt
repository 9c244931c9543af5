// Lines about residual searches. crates/compare/data/residuals.txt tells what stands in them.
#![tactic(auto)]

ghost use Rattle.std.specs.Prelude.{◌+◌, ◌≤◌, length};

use compare_indexes::inner::Asked;
use compare_lines::inner::words_same;
use compare_lines::{OLD_HALF, OLD_WORD, narrow};
use limits::Refusal;
use row_gates::Gate;
use search_residual_trial::inner::Found;

// 21 NV W, the points' words, the target, W2 W3 LIMIT, the row, ANSWER GATE A B
pub fn residual_same(line: &[u64]) -> bool {
    if line.len() < 3 {
        return false;
    }
    if 6 < line[1] {
        return false;
    }
    let nv = line[1] as usize;
    let at = 3 + 16 * nv;
    if line.len() != at + 39 {
        return false;
    }
    let mut atom_rows = [0u64; 7664];
    let atom_count = compare_banks::inner::bank_rows(&mut atom_rows, line, nv);
    search_is(line, at + 16, atom_count, &atom_rows)
}

// Whether the search over these atoms and their index, of at most 500 pairs and of its own width, answers as stands from `at` on.
fn search_is(line: &[u64], at: usize, atom_count: usize, atom_rows: &[u64]) -> bool
    requires { (at ≤ 500) × (at + 23 ≤ length line.now) }
{
    let mut pair_rows = [OLD_WORD; 8000];
    let mut order = [OLD_HALF; 500];
    let asked = Asked {
        w: narrow(line[at]),
        count: atom_count,
        limit: line[at + 2] as usize,
    };
    let Some(n) = compare_indexes::inner::built_rows(&mut pair_rows, &mut order, asked, atom_rows)
    else {
        return false;
    };
    let row = compare_lines::inner::row_at(line, at + 3);
    let r = search_residual::residual_search(
        narrow(line[at + 1]),
        atom_count,
        atom_rows,
        n,
        &pair_rows,
        row,
    );
    residual_is(r, line, at + 19)
}

// Whether the answer is the one from `at` on.
fn residual_is(r: Result<Option<Found>, Refusal>, line: &[u64], at: usize) -> bool
    requires { at + 4 ≤ length line.now }
{
    match r {
        Ok(Some(Found::Atoms(g, a, b))) => told_is(1, g, a.0, b.0, line, at),
        Ok(Some(Found::AtomPair(g, a, s))) => told_is(2, g, a.0, s.0, line, at),
        Ok(None) => words_same(&[0, 0, 0, 0], line, at),
        Err(_) => false,
    }
}

// Whether the parts found, atoms 1 or atom and pair 2, are the four numbers from `at` on.
fn told_is(parts: u64, g: Gate, a: u32, b: u32, line: &[u64], at: usize) -> bool
    requires { at + 4 ≤ length line.now }
{
    words_same(&[parts, u32::from(g) as u64, a as u64, b as u64], line, at)
}

// 22 W COUNT ATOMSLEN N LISTEDLEN WORD REFUSAL
pub fn residual_refusal_same(line: &[u64]) -> bool {
    if line.len() != 8 {
        return false;
    }
    let atom_rows = [0u64; 8000];
    let pair_rows = [0u64; 8000];
    let mut target = [0u64; 16];
    target[15] = line[6];
    let r = search_residual::residual_search(
        narrow(line[1]),
        line[2] as usize,
        compare_lines::first(&atom_rows, line[3]),
        line[4] as usize,
        compare_lines::first(&pair_rows, line[5]),
        target,
    );
    compare_lines::refusal_of(r) == line[7]
}

// 23 W COUNT N, the atoms' words, the pairs' words, the target, ANSWER GATE A B
pub fn lent_residual_same(line: &[u64]) -> bool {
    if line.len() < 4 {
        return false;
    }
    if 30 < line[2] {
        return false;
    }
    if 30 < line[3] {
        return false;
    }
    let atom_count = line[2] as usize;
    let pair_count = line[3] as usize;
    let pairs_at = 4 + 16 * atom_count;
    let target_at = pairs_at + 16 * pair_count;
    if line.len() != target_at + 20 {
        return false;
    }
    let target = compare_lines::inner::row_at(line, target_at);
    let r = search_residual::residual_search(
        narrow(line[1]),
        atom_count,
        &line[4..pairs_at],
        pair_count,
        &line[pairs_at..target_at],
        target,
    );
    residual_is(r, line, target_at + 16)
}
