// Points and rows that come as slices, and what is refused before a call.
ghost use Rattle.std.specs.Prelude.{◌≡◌, ◌+◌, ◌*◌, ◌≤◌, length};
ghost use Rattle.limits.specs.Refusal.{refusal_of, says, outcome};
ghost use Rattle.row_gates.specs.Gates.{gate_at};
ghost use Rattle.simjaldek_abi.specs.Slices.{row_in, row_refusal, points_refusal, points_row_refusal, point_in, points_in, two_short, three_short, gate_refusal};

use limits::Refusal;
use probe_points::{POINT_WORDS, POINTS, Point};
use row_gates::{Gate, ROW_WORDS};

// A row, beside a width.
pub fn row_of(w: u32, row: &[u64]) -> Result<[u64; 16], Refusal>
    ensures { says result ≡ outcome (row_refusal w row.now) (row_in row.now) }
{
    if limits::inner::bad_width(w) {
        return Err(Refusal::Width);
    }
    if row.len() < ROW_WORDS {
        return Err(Refusal::ShortArray);
    }
    Ok(row_lent::inner::load_row(row, 0))
}

// Whether a variable count, a width and points are refused.
pub fn check_points(nv: u32, w: u32, points: &[u64]) -> Result<(), Refusal>
    ensures { refusal_of result ≡ points_refusal nv w points.now }
{
    if limits::inner::bad_count(nv) {
        return Err(Refusal::VariableCount);
    }
    if limits::inner::bad_width(w) {
        return Err(Refusal::Width);
    }
    if points.len() < POINTS * POINT_WORDS {
        return Err(Refusal::ShortArray);
    }
    Ok(())
}

// The same with a row.
pub fn check_points_row(nv: u32, w: u32, points: &[u64], row: &[u64]) -> Result<(), Refusal>
    ensures { refusal_of result ≡ points_row_refusal nv w points.now row.now }
{
    if limits::inner::bad_count(nv) {
        return Err(Refusal::VariableCount);
    }
    if limits::inner::bad_width(w) {
        return Err(Refusal::Width);
    }
    if points.len() < POINTS * POINT_WORDS || row.len() < ROW_WORDS {
        return Err(Refusal::ShortArray);
    }
    Ok(())
}

// Point k.
fn point_of(words: &[u64], k: usize) -> Point
    requires { 6 * k + 6 ≤ length words.now }
    ensures { result ≡ point_in words.now k }
{
    let base = POINT_WORDS * k;
    let mut point = [0u64; POINT_WORDS];
    point.copy_from_slice(&words[base..base + POINT_WORDS]);
    Point { words: point }
}

// Sixteen points of six words each.
pub fn points_of(words: &[u64]) -> [Point; 16]
    requires { 96 ≤ length words.now }
    ensures { result ≡ points_in words.now }
{
    let mut points = [Point {
        words: [0; POINT_WORDS],
    }; POINTS];
    for k in 0..POINTS {
        points[k] = point_of(words, k);
    }
    points
}

// Whether one of two rows has fewer than sixteen words.
pub fn two_short(a: &[u64], b: &[u64]) -> bool
    ensures { result ≡ two_short a.now b.now }
{
    a.len() < ROW_WORDS || b.len() < ROW_WORDS
}

// The same of three.
pub fn three_short(a: &[u64], b: &[u64], c: &[u64]) -> bool
    ensures { result ≡ three_short a.now b.now c.now }
{
    two_short(a, b) || c.len() < ROW_WORDS
}

// The gate of a number, beside a width and the test of the rows.
pub fn gate_in(w: u32, short: bool, g: u32) -> Result<Gate, Refusal>
    ensures { says result ≡ outcome (gate_refusal w short g) (gate_at g) }
{
    if limits::inner::bad_width(w) {
        return Err(Refusal::Width);
    }
    if short {
        return Err(Refusal::ShortArray);
    }
    Gate::try_from(g)
}
