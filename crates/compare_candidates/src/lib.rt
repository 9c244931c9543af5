// Lines about candidates. crates/compare/data/searches.txt tells what stands in them.
#![tactic(auto)]

ghost use Rattle.std.specs.Prelude.{◌+◌, ◌≤◌, length};

use compare_lines::{OLD_HALF, OLD_WORD, narrow};
use limits::Refusal;

// An answer by the numbers that a line has for it: 0 used, 1 not used, 100 + r refused r; then how many candidates are listed.
#[derive(Clone, Copy)]
struct Told {
    answer: u64,
    count: u64,
}

fn numbers_of(r: Result<Option<u32>, Refusal>) -> Told {
    match r {
        Ok(Some(count)) => Told {
            answer: 0,
            count: count as u64,
        },
        Ok(None) => Told {
            answer: 1,
            count: 0,
        },
        Err(refusal) => Told {
            answer: 100 + u32::from(refusal) as u64,
            count: 0,
        },
    }
}

// Rows with the n first words that stand from place 3 on. Nothing reads their other words. A loop: it fills each sixteenth word alone.
fn rows_at(line: &[u64], n: usize) -> [u64; 3200]
    requires { (n ≤ 200) × (3 + n ≤ length line.now) }
{
    let mut rows = [OLD_WORD; 3200];
    for i in 0..n {
        rows[16 * i] = line[3 + i];
    }
    rows
}

// The n slots that stand from `base` on.
fn order_at(line: &[u64], base: usize, n: usize) -> [u32; 200]
    requires { (n ≤ 200) × (base + n ≤ length line.now) }
{
    std::array::from_fn(|i| if i < n {
        narrow(line[base + i])
    } else {
        OLD_HALF
    })
}

// 15 W N, first words, order list, P T ANSWER COUNT, slots
pub fn candidates_same(line: &[u64]) -> bool {
    if line.len() < 7 {
        return false;
    }
    if 200 < line[2] {
        return false;
    }
    let n = line[2] as usize;
    let at = 3 + 2 * n;
    if line.len() < at + 4 {
        return false;
    }
    list_same(line, n, at)
}

// Whether the candidates of n pairs for the p and t from `at` on, in a list with places to spare, are those that follow.
fn list_same(line: &[u64], n: usize, at: usize) -> bool
    requires { (n ≤ 200) × (3 + n + n ≤ at) × (at + 4 ≤ length line.now) }
{
    let rows = rows_at(line, n);
    let order = order_at(line, 3 + n, n);
    let mut candidates = [OLD_HALF; 250];
    let r = search_candidates::collect_mul_probe0_candidates(
        narrow(line[1]),
        n,
        &rows,
        &order,
        line[at],
        line[at + 1],
        &mut candidates,
    );
    told_is(numbers_of(r), &candidates, line, at + 2)
}

// Whether the answer, the count and the listed candidates are all that stands from `at` on.
fn told_is(t: Told, candidates: &[u32], line: &[u64], at: usize) -> bool
    requires { at + 2 ≤ length line.now }
{
    if t.answer != line[at] {
        return false;
    }
    if t.count != line[at + 1] {
        return false;
    }
    if t.count != (line.len() - at - 2) as u64 {
        return false;
    }
    list_is(candidates, line, at + 2)
}

// Whether the list begins with all the numbers from `base` on, and its other places are as they were.
fn list_is(candidates: &[u32], line: &[u64], base: usize) -> bool
    requires { base ≤ length line.now }
{
    for i in base..line.len() {
        if compare_lines::number_at(candidates, i - base) != line[i] {
            return false;
        }
    }
    compare_lines::kept(candidates, line.len() - base, OLD_HALF)
}

// 18 W N LISTEDLEN ORDERLEN LISTLEN P T SWAP REFUSAL
pub fn candidates_refusal_same(line: &[u64]) -> bool {
    if line.len() != 10 {
        return false;
    }
    let pair_rows = [0u64; 8000];
    let order = compare_lines::zero_order(line[8]);
    let mut candidates = [OLD_HALF; 8000];
    let t = candidates_of_parts(&mut candidates, &pair_rows, &order, line);
    if !refusal_is(t, line[9]) {
        return false;
    }
    compare_lines::kept(&candidates, t.count as usize, OLD_HALF)
}

// The candidates over parts of the arrays, as long as the line says.
fn candidates_of_parts(
    candidates: &mut [u32],
    pair_rows: &[u64],
    order: &[u32],
    line: &[u64],
) -> Told
    requires { 10 ≤ length line.now }
{
    let r = search_candidates::collect_mul_probe0_candidates(
        narrow(line[1]),
        line[2] as usize,
        compare_lines::first(pair_rows, line[3]),
        compare_lines::first(order, line[4]),
        line[6],
        line[7],
        compare_lines::first_mut(candidates, line[5]),
    );
    numbers_of(r)
}

fn refusal_is(t: Told, refusal: u64) -> bool {
    if t.answer < 100 {
        return refusal == 0;
    }
    t.answer - 100 == refusal
}
