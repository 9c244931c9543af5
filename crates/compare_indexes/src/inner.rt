// An index against the one that a line tells, for the lines that have the rows of a bank.
ghost use Rattle.std.specs.Prelude.{◌+◌, ◌^◌, ◌≤◌, ◌<◌, length};

use compare_lines::{OLD_HALF, OLD_WORD, narrow};
use index::BuiltIndex;
pub use index::inner::Asked;
use limits::Refusal;

// Whether the first n elements have the digest and the others are as they were.
fn part_is<T: Copy + Into<u64> + PartialEq>(s: &[T], n: usize, digest: u64, old: T) -> bool {
    compare_lines::digest(s, n) == digest && compare_lines::kept(s, n, old)
}

// Whether the index of `atom_count` rows, of at most 500 pairs, is the one that stands from `at` on.
pub fn index_is(line: &[u64], at: usize, atom_count: usize, atom_rows: &[u64]) -> bool
    requires { at + 7 ≤ length line.now }
{
    let mut pairs = [OLD_HALF; 1500];
    let mut pair_rows = [OLD_WORD; 8000];
    let mut order = [OLD_HALF; 500];
    let mut work = [OLD_HALF; 3916];
    let built = index::build_index(
        narrow(line[at]),
        atom_count,
        atom_rows,
        line[at + 1] as usize,
        &mut pairs,
        &mut pair_rows,
        &mut order,
        &mut work,
    );
    // of another mark, and refused, it counts as 2^64 - 1, which a line may say
    let n = match pairs_of(built, line[at + 3]) {
        Some(n) => n as u64,
        None => u64::MAX,
    };
    if n != line[at + 2] {
        return false;
    }
    arrays_are(line, at, narrow(n) as usize, &pairs, &pair_rows, &order)
}

// How many pairs an answer has, if it has the mark.
fn pairs_of(r: Result<BuiltIndex, Refusal>, mark: u64) -> Option<u32> {
    let built = r.ok()?;
    // the mark is 1 for cut, 0 for whole
    if u64::from(built.cut) != mark {
        return None;
    }
    Some(built.pairs)
}

fn arrays_are(
    line: &[u64],
    at: usize,
    n: usize,
    pairs: &[u32],
    pair_rows: &[u64],
    order: &[u32],
) -> bool
    requires { (n < 2 ^ 32) × (at + 7 ≤ length line.now) }
{
    part_is(pairs, 3 * n, line[at + 4], OLD_HALF)
        && part_is(pair_rows, 16 * n, line[at + 5], OLD_WORD)
        && part_is(order, n, line[at + 6], OLD_HALF)
}

// Builds the index that is asked for, of at most 500 pairs: its words, its rows and its order list are left, and the count of its pairs is handed back, none
// where it is refused.
pub fn built_index(
    pairs: &mut [u32],
    pair_rows: &mut [u64],
    order: &mut [u32],
    asked: Asked,
    atom_rows: &[u64],
) -> Option<usize> {
    let mut work = [0u32; 3916];
    let built = index::build_index(
        asked.w,
        asked.count,
        atom_rows,
        asked.limit,
        pairs,
        pair_rows,
        order,
        &mut work,
    )
    .ok()?;
    Some(built.pairs as usize)
}

// Its rows and its order list alone.
pub fn built_rows(
    pair_rows: &mut [u64],
    order: &mut [u32],
    asked: Asked,
    atom_rows: &[u64],
) -> Option<usize> {
    let mut pairs = [0u32; 1500];
    built_index(&mut pairs, pair_rows, order, asked, atom_rows)
}
