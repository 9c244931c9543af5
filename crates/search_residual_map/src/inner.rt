// What the residual search calls. The map's slots are the residual rows, numbered against the order of the search, so that the newest of a chain is tried
// first. No residual row is stored: what a row is compared with is worked out again.
ghost use Rattle.std.specs.Prelude.{◌≡◌, ◌+◌, ◌*◌, ◌^◌, ◌<◌, ◌≤◌, length, slice_index};
ghost use Rattle.arrays.specs.Parts.{part_at};
ghost use Rattle.search_residual_trial.specs.Steps.{outer_at, atom_at, wanted};
ghost use Rattle.search_residual_map.specs.Map.{swapped_of, mixed, home_of, Asked, IsAsked, HasWanted, same_by, ReadBy, BestBy};

use crate::First;
use row_gates::{Gate, ROW_WORDS};
use search_residual_trial::inner::Search;

// There are 2^12 chains.
const HOME_BITS: u32 = 12;

const HEADS: usize = 4096;

// The constant whose powers the words of a row are multiplied with, two at a time.
const MIX: u64 = 0x9E37_79B9_7F4A_7C15;

const WORD_PAIRS: usize = 8;

// A word with its halves exchanged: the low ones of a product depend on high bits too.
fn swapped(x: u64) -> u64
    ensures { result ≡ swapped_of x }
{
    x.rotate_left(32)
}

// The sum of a row's words, two by two, times powers of the constant.
fn mix_row(rows: &[u64], slot: usize) -> u64
    requires { 16 * slot + 16 ≤ length rows.now }
    ensures { result ≡ mixed (part_at 16 rows.now slot) }
{
    let base = ROW_WORDS * slot;
    let mut sum: u64 = 0;
    let mut power: u64 = MIX;
    for i in 0..WORD_PAIRS {
        let word = rows[base + 2 * i] ^ swapped(rows[base + 2 * i + 1]);
        sum = std::num::wrapping_add_u64(sum, arith::wrapping_mul(word, power));
        power = arith::wrapping_mul(power, MIX);
    }
    sum
}

// The chain of a row: the highest bits of the sum.
fn home_of(rows: &[u64], slot: usize) -> u32
    requires { 16 * slot + 16 ≤ length rows.now }
    ensures { (result ≡ home_of (part_at 16 rows.now slot)) × (result < 4096) }
{
    (mix_row(rows, slot) >> 52) as u32
}

// The outer gate of residual row t.
fn outer_at(count: usize, t: usize) -> Gate
    ensures { result ≡ outer_at count t }
{
    if t < count { Gate::Add } else { Gate::Xor }
}

// Its atom.
fn atom_at(count: usize, t: usize) -> usize
    requires { (count ≤ 479) × (t < 2 * count) }
    ensures { (result ≡ atom_at count t) × (result < count) }
{
    if t < count {
        count - 1 - t
    } else {
        2 * count - 1 - t
    }
}

// The chain of residual row t.
fn wanted_home(atoms: &[u64], count: usize, target: [u64; 16], w: u32, t: usize) -> u32
    requires { Asked w count atoms.now target × (t < 2 * count) }
    ensures { (result ≡ home_of (wanted w count atoms.now target t)) × (result < 4096) }
{
    let atom = row_lent::inner::load_row(atoms, atom_at(count, t));
    let row = row_gates::inner::residual_row(target, atom, outer_at(count, t), w);
    home_of(&row, 0)
}

// Takes all residual rows into the map, whose area is all zeros before.
pub fn fill(work: &mut [u32], search: &Search<'_>)
    requires { IsAsked search.now × HasWanted search.now work.old 0 }
    ensures { HasWanted search.now work.new (2 * search.now.count) }
{
    // out of the struct once: a row's chain takes the target by value
    let Search {
        w,
        count,
        atoms,
        target,
    } = *search;
    for t in 0..2 * count {
        let home = wanted_home(atoms, count, target, w, t);
        row_map::inner::insert(work, HOME_BITS, t, home);
    }
}

// Whether row `slot` is residual row t.
fn is_wanted(search: &Search<'_>, t: usize, rows: &[u64], slot: usize) -> bool
    requires { IsAsked search.now × (t < 2 * search.now.count) × (16 * slot + 16 ≤ length rows.now) }
    ensures { result ≡ same_by search.now rows.now t slot }
{
    let a = atom_at(search.count, t);
    let g = outer_at(search.count, t);
    search_residual_trial::inner::completes(search, a, g, rows, slot)
}

// The entry of the first trial whose residual row is row `slot`, if it is above `beaten`, an earlier trial's than that; else `beaten`. The chain begins at `head`.
fn walk(search: &Search<'_>, work: &[u32], head: u32, beaten: u32, rows: &[u64], slot: usize) -> u32
    requires asked { IsAsked search.now × HasWanted search.now work.now (2 * search.now.count) × (16 * slot + 16 ≤ length rows.now) × (beaten ≤ 2 * search.now.count) }
    requires head_value { head ≡ slice_index work.now (home_of (part_at 16 rows.now slot)) }
    ensures { ReadBy search.now rows.now slot beaten result }
{
    let mut entry = head;
    // no count: the next place is told by the chain
    while beaten < entry {
        let t = (entry - 1) as usize;
        if is_wanted(search, t, rows, slot) {
            return entry;
        }
        entry = work[HEADS + t];
    }
    beaten
}

// One pass over the first n rows for all residual rows: the entry of the first trial whose residual row is among them, if it is above `beaten`, and the least slot that has it; else `beaten`.
pub fn first_of(search: &Search<'_>, work: &[u32], beaten: u32, rows: &[u64], n: usize) -> First
    requires { IsAsked search.now × HasWanted search.now work.now (2 * search.now.count) × (16 * n ≤ length rows.now) × (n ≤ 262144) × (beaten ≤ 2 * search.now.count) }
    ensures { BestBy search.now rows.now n beaten result.at result.slot }
{
    let end = 2 * search.count as u32;
    let mut at = beaten;
    let mut found: u32 = 0;
    for slot in 0..n {
        if at == end {
            return First { at, slot: found };
        }
        let home = home_of(rows, slot);
        let head = work[home as usize];
        let entry = walk(search, work, head, at, rows, slot);
        if at < entry {
            at = entry;
            found = slot as u32;
        }
    }
    First { at, slot: found }
}
