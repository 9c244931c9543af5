// The refusals of a bank build.
ghost use Rattle.std.specs.Prelude.{◌≡◌, ◌^◌, ◌≤◌, take};
ghost use Rattle.limits.specs.Refusal.{refusal_of};
ghost use Rattle.row_lent.specs.Range.{reaches};
ghost use Rattle.bank_parts.specs.Lent.{arrays_of};
ghost use Rattle.bank.specs.Build.{sizes_of, too_small, points_reach, bank_refusal};

use crate::Sizes;
use bank_atom::ATOM_TOKENS;
use bank_parts::{COST_NUMBERS, LentBank};
use bank_push::WORK_WORDS;
use bank_unary::Setting;
use limits::{ATOMS_MAX, Refusal};
use probe_points::Point;
use row_gates::ROW_WORDS;

// The lengths of the arrays that are lent.
pub fn sizes_of(bank: &LentBank<'_>, work: &[u32]) -> Sizes
    ensures { result ≡ sizes_of (arrays_of bank.now) work.now }
{
    Sizes {
        lengths: bank.lengths.len(),
        ops: bank.ops.len(),
        operands: bank.operands.len(),
        costs: bank.costs.len(),
        rows: bank.rows.len(),
        work: work.len(),
    }
}

// Whether an array is too short for 479 atoms.
fn too_small(s: Sizes) -> bool
    ensures { result ≡ too_small s }
{
    if s.lengths < ATOMS_MAX {
        return true;
    }
    if s.ops < ATOM_TOKENS * ATOMS_MAX {
        return true;
    }
    if s.operands < ATOM_TOKENS * ATOMS_MAX {
        return true;
    }
    if s.costs < COST_NUMBERS * ATOMS_MAX {
        return true;
    }
    if s.rows < ROW_WORDS * ATOMS_MAX {
        return true;
    }
    s.work < WORK_WORDS
}

// Whether one of the first nv words of a point is not below 2^w.
fn point_reaches(p: Point, nv: usize, w: u32) -> bool
    requires { (nv ≤ 6) × (w ≤ 64) }
    ensures { result ≡ reaches (2 ^ w) (take nv p.words) }
{
    let mask = arith::bitmask(w);
    for i in 0..nv {
        if mask < p.words[i] {
            return true;
        }
    }
    false
}

// The same of all sixteen points.
fn points_reach(points: [Point; 16], nv: usize, w: u32) -> bool
    requires { (nv ≤ 6) × (w ≤ 64) }
    ensures { result ≡ points_reach (2 ^ w) nv points }
{
    for p in points {
        if point_reaches(p, nv, w) {
            return true;
        }
    }
    false
}

// Whether a bank build is refused.
pub fn check(setting: Setting, target: [u64; 16], sizes: Sizes) -> Result<(), Refusal>
    ensures { refusal_of result ≡ bank_refusal setting.nv setting.w setting.points target sizes }
{
    if limits::inner::bad_count(setting.nv) {
        return Err(Refusal::VariableCount);
    }
    if limits::inner::bad_width(setting.w) {
        return Err(Refusal::Width);
    }
    if too_small(sizes) {
        return Err(Refusal::ShortArray);
    }
    if points_reach(setting.points, setting.nv as usize, setting.w) {
        return Err(Refusal::LargeWord);
    }
    if row_lent::inner::row_reaches(target, setting.w) {
        return Err(Refusal::LargeWord);
    }
    Ok(())
}
