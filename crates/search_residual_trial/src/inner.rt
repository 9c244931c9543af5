// What the residual search calls with rows that are long enough and a width that is tested.
ghost use Rattle.std.specs.Prelude.{◌≡◌, ◌+◌, ◌*◌, ◌≤◌, length};
ghost use Rattle.arrays.specs.Parts.{part_at};
ghost use Rattle.row_gates.specs.Gates.{same_row};
ghost use Rattle.search_residual_trial.specs.Trying.{completing};

use row_gates::{Gate, ROW_WORDS};
use row_lent::{AtomSlot, PairSlot};

// A completion that hits: its outer gate and both parts. Not the product search's answer, whose gate is always the product's.
#[derive(Clone, Copy)]
pub enum Found {
    Atoms(Gate, AtomSlot, AtomSlot),
    AtomPair(Gate, AtomSlot, PairSlot),
}

// What is searched for, and among which atoms: the first `count` of their rows. Passed by `&`: it holds the target's row.
#[derive(Clone, Copy)]
pub struct Search<'a> {
    pub w: u32,
    pub count: usize,
    pub atoms: &'a [u64],
    pub target: [u64; 16],
}

// Whether row `slot` of lent rows completes atom a to the target. Stops at the first word that doesn't.
pub fn completes(search: &Search<'_>, a: usize, g: Gate, rows: &[u64], slot: usize) -> bool
    requires { (16 * slot + 16 ≤ length rows.now) × (16 * a + 16 ≤ length search.now.atoms.now) × (length search.now.target ≡ 16) × (search.now.w ≤ 64) }
    ensures { result ≡ same_row (part_at 16 rows.now slot) (completing g search.now.w search.now.target search.now.atoms.now a) }
{
    let atoms = search.atoms;
    let w = search.w;
    let x = ROW_WORDS * slot;
    let y = ROW_WORDS * a;
    for j in 0..ROW_WORDS {
        if rows[x + j] != row_gates::inner::residual_lane(search.target[j], atoms[y + j], g, w) {
            return false;
        }
    }
    true
}
