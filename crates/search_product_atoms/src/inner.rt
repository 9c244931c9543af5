// What the product search calls with a count, rows and formulas that it has tested.
ghost use Rattle.std.specs.Prelude.{◌*◌, ◌≤◌, ◌<◌, length};
ghost use Rattle.search_product_trial.specs.Steps.{fits_at, Target, Next};
ghost use Rattle.search_product_trial.specs.Searches.{AtomsLent};
ghost use Rattle.search_product_atoms.specs.Steps.{FirstWords, TriedAtom, KeepsAtoms};

use limits::ATOMS_MAX;
use row_gates::ROW_WORDS;
use search_product_trial::inner::{Best, Search};

// An atom's product with another has two tokens more than the atom at least.
const OTHER_TOKENS: u32 = 2;

// Copies the first words of the atoms' rows, to have them side by side.
fn copy_firsts(firsts: &mut [u64], atoms: &[u64], count: usize)
    requires { (count ≤ length firsts.old) × (16 * count ≤ length atoms.now) }
    ensures { FirstWords atoms.now count firsts.new }
{
    for k in 0..count {
        firsts[k] = atoms[ROW_WORDS * k];
    }
}

// The first atom from `from` on that fits atom a; count, the list's end, if none does: the loop over those that fit is hot, and goes on to the end by one comparison. The first words sort out most.
// Innermost: plain slices, not the search that they are of.
fn next_atom(
    firsts: &[u64],
    atoms: &[u64],
    a: usize,
    from: usize,
    count: usize,
    target: &[u64],
    w: u32,
) -> usize
    requires { FirstWords atoms.now count firsts.now × (a < count) × (from ≤ count) × (16 * count ≤ length atoms.now) × Target w target.now }
    ensures { Next (fits_at w target.now atoms.now a atoms.now) count from result }
{
    let p = firsts[a];
    let t = target[0];
    for b in from..count {
        if arith::mod_mul(p, firsts[b], w) == t {
            if search_product_trial::inner::fits(atoms, a, atoms, b, target, w) {
                return b;
            }
        }
    }
    count
}

// Atom a with every atom from a on. One that has too many tokens by itself, or that no row can fit, is passed over.
fn try_atom(best: Best, search: &Search<'_>, firsts: &[u64], a: usize) -> Best
    requires { FirstWords search.now.atoms.now search.now.forms.count firsts.now × (a < search.now.forms.count) × AtomsLent search.now }
    ensures { TriedAtom search.now a best result }
{
    if !best.may_beat(search.forms.lengths[a] + OTHER_TOKENS) {
        return best;
    }
    let atoms = search.atoms;
    let target = search.target;
    let w = search.w;
    if !search_product_trial::inner::may_fit(atoms, a, target, w) {
        return best;
    }
    let count = search.forms.count;
    let mut kept = best;
    let mut b = next_atom(firsts, atoms, a, a, count, target, w);
    // no count: the next atom is the next that fits
    while b < count {
        kept = search_product_trial::inner::offer_atoms(kept, &search.forms, a, b);
        b = next_atom(firsts, atoms, a, b + 1, count, target, w);
    }
    kept
}

// Every atom with every atom, both ascending. Products commute and cost the same: an atom was tried with those before it in their turns.
fn search_atoms(search: &Search<'_>, firsts: &[u64]) -> Best
    requires { FirstWords search.now.atoms.now search.now.forms.count firsts.now × AtomsLent search.now }
    ensures { KeepsAtoms search.now result }
{
    let mut best = Best::nothing();
    for a in 0..search.forms.count {
        best = try_atom(best, search, firsts, a);
    }
    best
}

// The first stage.
pub fn two_atoms(search: &Search<'_>) -> Best
    requires { AtomsLent search.now }
    ensures { KeepsAtoms search.now result }
{
    let mut firsts: [u64; ATOMS_MAX] = [0; ATOMS_MAX];
    copy_firsts(&mut firsts, search.atoms, search.forms.count);
    search_atoms(search, &firsts)
}
