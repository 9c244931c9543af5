// Lines about indexes of pairs. crates/compare/data/indexes.txt tells what stands in them.
#![tactic(auto)]

pub mod inner;

ghost use Rattle.std.specs.Prelude.{◌≤◌, length};

use compare_lines::{OLD_HALF, OLD_WORD, narrow};

// 14 W COUNT ROWSLEN LIMIT PAIRSLEN PAIRROWSLEN ORDERLEN WORKLEN REFUSAL
pub fn index_refusal_same(line: &[u64]) -> bool {
    if line.len() != 10 {
        return false;
    }
    let mut pairs = [OLD_HALF; 8000];
    let mut pair_rows = [OLD_WORD; 8000];
    let mut order = [OLD_HALF; 8000];
    let mut work = [OLD_HALF; 8000];
    let atom_rows = [OLD_WORD; 8000];
    let number = index_refusal(
        &mut pairs,
        &mut pair_rows,
        &mut order,
        &mut work,
        &atom_rows,
        line,
    );
    if number != line[9] {
        return false;
    }
    if number == 0 {
        return true;
    }
    all_kept(&pairs, &pair_rows, &order, &work)
}

// The refusal of a build into parts of the arrays, as long as the line says; 0 for none.
fn index_refusal(
    pairs: &mut [u32],
    pair_rows: &mut [u64],
    order: &mut [u32],
    work: &mut [u32],
    atom_rows: &[u64],
    line: &[u64],
) -> u64
    requires { 10 ≤ length line.now }
{
    let built = index::build_index(
        narrow(line[1]),
        line[2] as usize,
        compare_lines::first(atom_rows, line[3]),
        line[4] as usize,
        compare_lines::first_mut(pairs, line[5]),
        compare_lines::first_mut(pair_rows, line[6]),
        compare_lines::first_mut(order, line[7]),
        compare_lines::first_mut(work, line[8]),
    );
    compare_lines::refusal_of(built)
}

// Whether a refused build left its arrays alone.
fn all_kept(pairs: &[u32], pair_rows: &[u64], order: &[u32], work: &[u32]) -> bool {
    compare_lines::kept(pairs, 0, OLD_HALF)
        && compare_lines::kept(pair_rows, 0, OLD_WORD)
        && compare_lines::kept(order, 0, OLD_HALF)
        && compare_lines::kept(work, 0, OLD_HALF)
}
