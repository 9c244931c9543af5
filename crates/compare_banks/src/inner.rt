// The points of a line and the bank of a line, for the lines that go on from its rows.
ghost use Rattle.std.specs.Prelude.{◌≤◌, length};

use bank_parts::LentBank;
use bank_unary::Setting;
use compare_lines::narrow;
use limits::Refusal;
use probe_points::Point;

// A point of nv words from `base` on, zeros past them. Not the listing's `point_of`, which is what is compared and reads a text's numbers at other places.
fn point_at(line: &[u64], base: usize, nv: usize) -> Point
    requires { (base ≤ 1000) × (nv ≤ 6) }
{
    let mut words = [0u64; 6];
    for i in 0..nv {
        words[i] = compare_lines::number_at(line, base + i);
    }
    Point { words }
}

// Sixteen points from place 3 on, each of `stride` words.
pub fn points_at(line: &[u64], stride: usize) -> [Point; 16]
    requires { stride ≤ 6 }
{
    std::array::from_fn(|k| point_at(line, 3 + k * stride, stride))
}

// The variable count and the width of a line KIND NV W, with points.
pub fn setting_of(line: &[u64], points: [Point; 16]) -> Setting
    requires { 3 ≤ length line.now }
{
    Setting {
        nv: narrow(line[1]),
        w: narrow(line[2]),
        points,
    }
}

// The bank of a line KIND NV W, the points' words and the target: its formulas and rows are left, and how many atoms there are is handed back; 0 where it is
// refused.
pub fn bank_of(
    lengths: &mut [u32],
    ops: &mut [u8],
    operands: &mut [u64],
    rows: &mut [u64],
    line: &[u64],
    nv: usize,
) -> usize
    requires { (nv ≤ 6) × (3 ≤ length line.now) }
{
    let points = points_at(line, nv);
    let target = compare_lines::inner::row_at(line, 3 + 16 * nv);
    let mut costs = [0u32; 1437];
    let mut work = [0u32; 1916];
    let mut lent = LentBank {
        lengths,
        ops,
        operands,
        costs: &mut costs,
        rows,
    };
    let built = bank::build_bank(&mut lent, &mut work, setting_of(line, points), target);
    count_of(built)
}

// The rows alone.
pub fn bank_rows(rows: &mut [u64], line: &[u64], nv: usize) -> usize
    requires { (nv ≤ 6) × (3 ≤ length line.now) }
{
    let mut lengths = [0u32; 479];
    let mut ops = [0u8; 2874];
    let mut operands = [0u64; 2874];
    bank_of(&mut lengths, &mut ops, &mut operands, rows, line, nv)
}

// The atoms of an answer, at most 479; 0 where it is refused.
pub fn count_of(r: Result<u32, Refusal>) -> usize
    ensures { result ≤ 479 }
{
    match r {
        Ok(count) if count <= 479 => count as usize,
        _ => 0,
    }
}
