// Points and target out of the numbers of a text, what is refused of them, and the listing that they ask for.
ghost use Rattle.std.specs.Prelude.{◌≡◌, ◌+◌, ◌*◌, ◌≤◌, length};
ghost use Rattle.limits.specs.Refusal.{refusal_of};
ghost use Rattle.bank_parts.specs.Lent.{arrays_of};
ghost use Rattle.bank_unary.specs.Phases.{Holding};
ghost use Rattle.text_print.specs.Text.{listing_of};
ghost use Rattle.text_print.specs.Printing.{Wrote, text_max};
ghost use Rattle.listing.specs.Listing.{count_of, points_of, target_of, numbers_refusal, text_for};
ghost use Rattle.listing.specs.Steps.{point_from, InRange, reach_refusal, IsDemand, atoms_for, index_for};

use bank::Sizes;
use bank_atom::ATOM_TOKENS;
use bank_parts::{COST_NUMBERS, LentBank};
use bank_push::WORK_WORDS;
use bank_unary::Setting;
use index::inner::Asked;
use index_spec::PAIR_WORDS;
use limits::{ATOMS_MAX, Refusal};
use probe_points::{POINT_WORDS, POINTS, Point};
use row_gates::ROW_WORDS;
use text_print::inner::{Atoms, Pairs};

// The most pairs of a listing, as a number that is read and as a length.
const LIMIT_MAX: u64 = 500;

const PAIRS_MAX: usize = 500;

// The words of the work area of bank and index.
const AREA_WORDS: usize = 4 * (PAIRS_MAX + ATOMS_MAX);

// Where the variable count, the width, L and the points stand among the numbers.
const COUNT_AT: usize = 0;

const WIDTH_AT: usize = 1;

const LIMIT_AT: usize = 2;

const POINTS_AT: usize = 3;

// A point of nv words from `base` on, zeros past them.
fn point_of(numbers: [u64; 115], base: usize, nv: usize) -> Point
    requires { (nv ≤ 6) × (base + nv ≤ 115) }
    ensures { result ≡ point_from numbers base nv }
{
    let mut words = [0u64; POINT_WORDS];
    for i in 0..nv {
        words[i] = numbers[base + i];
    }
    Point { words }
}

// The sixteen points, of as many words as there are variables.
fn points_of(numbers: [u64; 115], nv: usize) -> [Point; 16]
    requires { (nv ≡ count_of numbers) × (nv ≤ 6) }
    ensures { result ≡ points_of numbers }
{
    let mut points = [Point {
        words: [0; POINT_WORDS],
    }; POINTS];
    let mut base = POINTS_AT;
    for k in 0..POINTS {
        let p = point_of(numbers, base, nv);
        points[k] = p;
        base += nv;
    }
    points
}

// The target row, after the points.
fn target_of(numbers: [u64; 115], nv: usize) -> [u64; 16]
    requires { (nv ≡ count_of numbers) × (nv ≤ 6) }
    ensures { result ≡ target_of numbers }
{
    let base = POINTS_AT + ROW_WORDS * nv;
    let mut row = [0u64; ROW_WORDS];
    row.copy_from_slice(&numbers[base..base + ROW_WORDS]);
    row
}

// Whether a word isn't below 2^w: the bank build's refusal, in arrays that are long enough.
fn check_reach(numbers: [u64; 115]) -> Result<(), Refusal>
    requires { InRange numbers }
    ensures { refusal_of result ≡ reach_refusal numbers }
{
    let nv = numbers[COUNT_AT] as usize;
    let points = points_of(numbers, nv);
    let target = target_of(numbers, nv);
    let sizes = Sizes {
        lengths: ATOMS_MAX,
        ops: ATOM_TOKENS * ATOMS_MAX,
        operands: ATOM_TOKENS * ATOMS_MAX,
        costs: COST_NUMBERS * ATOMS_MAX,
        rows: ROW_WORDS * ATOMS_MAX,
        work: WORK_WORDS,
    };
    let setting = Setting {
        nv: nv as u32,
        w: numbers[WIDTH_AT] as u32,
        points,
    };
    bank::inner::check(setting, target, sizes)
}

// Whether the numbers of a text are refused. Of a variable count above 6 nothing past the first number is read.
pub fn check(numbers: [u64; 115]) -> Result<(), Refusal>
    ensures { refusal_of result ≡ numbers_refusal numbers }
{
    if limits::inner::outside(numbers[COUNT_AT], 1, limits::MAX_VARS as u64) {
        return Err(Refusal::VariableCount);
    }
    if limits::inner::outside(numbers[WIDTH_AT], 1, limits::MAX_WIDTH as u64) {
        return Err(Refusal::Width);
    }
    if LIMIT_MAX < numbers[LIMIT_AT] {
        return Err(Refusal::Limit);
    }
    check_reach(numbers)
}

// What is listed: the bank of a setting with the seeds of a target, and its index of at most `limit` pairs.
#[derive(Clone, Copy)]
pub struct Demand {
    pub setting: Setting,
    pub limit: usize,
    pub target: [u64; 16],
}

// Writes the listing of a bank and of its index, and answers the place after it.
fn list_bank(out: &mut [u8], demand: Demand) -> usize
    requires { IsDemand demand × (text_max ≤ length out.old) }
    ensures wrote { Wrote out.old 0 out.new result (listing_of (atoms_for demand) (index_for demand)) }
    ensures upper_bound { result ≤ text_max }
{
    let mut lengths = [0u32; ATOMS_MAX];
    let mut ops = [0u8; ATOM_TOKENS * ATOMS_MAX];
    let mut operands = [0u64; ATOM_TOKENS * ATOMS_MAX];
    let mut costs = [0u32; COST_NUMBERS * ATOMS_MAX];
    let mut rows = [0u64; ROW_WORDS * ATOMS_MAX];
    let mut work = [0u32; AREA_WORDS];
    let mut bank = LentBank {
        lengths: &mut lengths,
        ops: &mut ops,
        operands: &mut operands,
        costs: &mut costs,
        rows: &mut rows,
    };
    let n = bank_phases::inner::build(&mut bank, &mut work, demand.setting, demand.target);
    list_built(out, &bank, &mut work, n, demand)
}

// The same of the bank of n atoms that is built: the index is built of its rows.
fn list_built(
    out: &mut [u8],
    bank: &LentBank<'_>,
    work: &mut [u32],
    n: usize,
    demand: Demand,
) -> usize
    requires demand { IsDemand demand × (text_max ≤ length out.old) }
    requires holding { Holding (arrays_of bank.now) work.old n (atoms_for demand) }
    requires area { 4 * (500 + 479) ≤ length work.old }
    ensures wrote { Wrote out.old 0 out.new result (listing_of (atoms_for demand) (index_for demand)) }
    ensures upper_bound { result ≤ text_max }
{
    let mut pairs = [0u32; PAIR_WORDS * PAIRS_MAX];
    let mut listed = [0u64; ROW_WORDS * PAIRS_MAX];
    let mut order = [0u32; PAIRS_MAX];
    let asked = Asked {
        w: demand.setting.w,
        count: n,
        limit: demand.limit,
    };
    let made = index::inner::build(work, &mut pairs, &mut listed, &mut order, bank.rows, asked);
    let atoms = Atoms {
        lengths: bank.lengths,
        ops: bank.ops,
        operands: bank.operands,
        costs: bank.costs,
        n,
    };
    let shown = Pairs {
        numbers: &pairs,
        m: made.pairs,
        cut: made.cut,
    };
    text_print::inner::print_listing(out, &atoms, &shown)
}

// Writes the listing that the numbers ask for, and answers the place after it.
pub fn list_numbers(out: &mut [u8], numbers: [u64; 115]) -> usize
    requires { InRange numbers × (text_max ≤ length out.old) }
    ensures wrote { Wrote out.old 0 out.new result (text_for numbers) }
    ensures upper_bound { result ≤ text_max }
{
    let nv = numbers[COUNT_AT] as usize;
    let points = points_of(numbers, nv);
    let target = target_of(numbers, nv);
    let setting = Setting {
        nv: nv as u32,
        w: numbers[WIDTH_AT] as u32,
        points,
    };
    let demand = Demand {
        setting,
        limit: numbers[LIMIT_AT] as usize,
        target,
    };
    list_bank(out, demand)
}
