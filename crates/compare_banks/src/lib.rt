// Lines about banks, and about the index of a bank. crates/compare/data/banks.txt and indexes.txt tell what stands in them.
#![tactic(auto)]

pub mod inner;

ghost use Rattle.std.specs.Prelude.{◌+◌, ◌≤◌, length};

use bank::Sizes;
use bank_parts::LentBank;
use compare_lines::narrow;
use probe_points::Point;

// The most that a lent array is long in the data.
const SIZE_MAX: usize = 8000;

// 11 NV W, the points' words, the target, COUNT and a digest of each array
pub fn bank_same(line: &[u64]) -> bool {
    if line.len() < 3 {
        return false;
    }
    if 6 < line[1] {
        return false;
    }
    let nv = line[1] as usize;
    let at = 3 + 16 * nv;
    if line.len() != at + 22 {
        return false;
    }
    let points = inner::points_at(line, nv);
    let target = compare_lines::inner::row_at(line, at);
    built_is(line, points, target, at + 16)
}

// Whether the bank built is the one whose count and digests stand from `at` on.
fn built_is(line: &[u64], points: [Point; 16], target: [u64; 16], at: usize) -> bool
    requires { (3 ≤ at) × (at + 6 ≤ length line.now) }
{
    let mut lengths = [0u32; 479];
    let mut ops = [0u8; 2874];
    let mut operands = [0u64; 2874];
    let mut costs = [0u32; 1437];
    let mut rows = [0u64; 7664];
    let mut work = [0u32; 1916];
    let mut lent = LentBank {
        lengths: &mut lengths,
        ops: &mut ops,
        operands: &mut operands,
        costs: &mut costs,
        rows: &mut rows,
    };
    let setting = inner::setting_of(line, points);
    let built = bank::build_bank(&mut lent, &mut work, setting, target);
    let n = inner::count_of(built);
    arrays_are(line, at, n, &lent)
}

// Whether the count of atoms and the digests of their parts of the arrays stand from `at` on.
fn arrays_are(line: &[u64], at: usize, n: usize, lent: &LentBank<'_>) -> bool
    requires { (n ≤ 479) × (at + 6 ≤ length line.now) }
{
    if n as u64 != line[at] {
        return false;
    }
    if !texts_are(line, at, n, lent) {
        return false;
    }
    numbers_are(line, at, n, lent)
}

fn texts_are(line: &[u64], at: usize, n: usize, lent: &LentBank<'_>) -> bool
    requires { (n ≤ 479) × (at + 6 ≤ length line.now) }
{
    if compare_lines::digest(lent.lengths, n) != line[at + 1] {
        return false;
    }
    if compare_lines::digest(lent.ops, 6 * n) != line[at + 2] {
        return false;
    }
    compare_lines::digest(lent.operands, 6 * n) == line[at + 3]
}

fn numbers_are(line: &[u64], at: usize, n: usize, lent: &LentBank<'_>) -> bool
    requires { (n ≤ 479) × (at + 6 ≤ length line.now) }
{
    if compare_lines::digest(lent.costs, 3 * n) != line[at + 4] {
        return false;
    }
    compare_lines::digest(lent.rows, 16 * n) == line[at + 5]
}

// 12 NV W, six words of each point, the target, the lengths of six lent arrays, REFUSAL
pub fn bank_refusal_same(line: &[u64]) -> bool {
    if line.len() != 122 {
        return false;
    }
    let points = inner::points_at(line, 6);
    let target = compare_lines::inner::row_at(line, 99);
    let sizes = Sizes {
        lengths: compare_lines::least(line[115], SIZE_MAX),
        ops: compare_lines::least(line[116], SIZE_MAX),
        operands: compare_lines::least(line[117], SIZE_MAX),
        costs: compare_lines::least(line[118], SIZE_MAX),
        rows: compare_lines::least(line[119], SIZE_MAX),
        work: compare_lines::least(line[120], SIZE_MAX),
    };
    let checked = bank::inner::check(inner::setting_of(line, points), target, sizes);
    compare_lines::refusal_of(checked) == line[121]
}

// 13 NV W, the points' words, the target, W2 LIMIT PAIRS CUT and a digest of each array
pub fn index_same(line: &[u64]) -> bool {
    if line.len() < 3 {
        return false;
    }
    if 6 < line[1] {
        return false;
    }
    let nv = line[1] as usize;
    let at = 3 + 16 * nv;
    if line.len() != at + 23 {
        return false;
    }
    let mut rows = [0u64; 7664];
    let count = inner::bank_rows(&mut rows, line, nv);
    // no bank is empty
    if count == 0 {
        return false;
    }
    compare_indexes::inner::index_is(line, at + 16, count, &rows)
}
