// What the residual search is made of: its refusals, one pass over the bank and one over the index for all residual rows, and the loop over atoms that reads what they found.
ghost use Rattle.std.specs.Prelude.{◌≡◌, ℕ, ◌≤◌, ◌<◌};
ghost use Rattle.limits.specs.Refusal.{refusal_of};
ghost use Rattle.row_gates.specs.declared.Gate.{Gate};
ghost use Rattle.search_residual_trial.specs.Trying.{try_residuals};
ghost use Rattle.search_residual_trial.specs.Steps.{hit_says, found_says};
ghost use Rattle.search_residual.specs.Answer.{residual_refusal};
ghost use Rattle.search_residual.specs.Told.{Lent, part_says, lookup_says, told, told_under, told_first};

use limits::{ATOMS_MAX, PAIRS_MAX, Refusal};
use row_gates::{Gate, ROW_WORDS};
use row_lent::{AtomSlot, PairSlot};
use search_residual_map::First;
use search_residual_trial::inner::{Found, Search};

// The heads of the map of residual rows, and a link for each of at most 958 rows.
const AREA: usize = 5054;

// The atom or the pair that has a row.
#[derive(Clone, Copy)]
pub enum Part {
    Atom(AtomSlot),
    Pair(PairSlot),
}

// Whether a residual search is refused.
pub fn check(search: &Search<'_>, pair_rows: &[u64], pair_count: usize) -> Result<(), Refusal>
    ensures { refusal_of result ≡ residual_refusal search.now.w search.now.count search.now.atoms.now pair_count pair_rows.now search.now.target }
{
    if limits::inner::bad_width(search.w) {
        return Err(Refusal::Width);
    }
    if search.atoms.len() / ROW_WORDS < search.count || pair_rows.len() / ROW_WORDS < pair_count {
        return Err(Refusal::ShortArray);
    }
    if row_lent::inner::row_reaches(search.target, search.w) {
        return Err(Refusal::LargeWord);
    }
    if ATOMS_MAX < search.count || PAIRS_MAX < pair_count {
        return Err(Refusal::Claim);
    }
    Ok(())
}

// The lookup of the residual row with this entry, first in the bank, then in the index, by what the passes over them found.
fn look_up(bank: First, index: First, entry: u32) -> Option<Part>
    ensures { (g : Gate) (a : ℕ) → lookup_says g a result ≡ told g a entry bank index }
{
    if entry == bank.at {
        return Some(Part::Atom(AtomSlot(bank.slot)));
    }
    if entry == index.at {
        return Some(Part::Pair(PairSlot(index.slot)));
    }
    None
}

// Atom a, completed by a part.
fn found_with(g: Gate, a: usize, part: Part) -> Found
    requires { a < 4294967296 }
    ensures { hit_says result ≡ part_says g a part }
{
    let atom = AtomSlot(a as u32);
    match part {
        Part::Atom(b) => Found::Atoms(g, atom, b),
        Part::Pair(s) => Found::AtomPair(g, atom, s),
    }
}

// The first atom whose residual row under g is found; `top` is the entry of atom 0's.
fn first_under(g: Gate, top: usize, count: usize, bank: First, index: First) -> Option<Found>
    requires { (count ≤ top) × (top ≤ 958) }
    ensures { found_says result ≡ told_under g top count bank index }
{
    for a in 0..count {
        let Some(part) = look_up(bank, index, (top - a) as u32) else {
            continue;
        };
        return Some(found_with(g, a, part));
    }
    None
}

// The whole of it over Xor, then over Add.
fn first_told(count: usize, bank: First, index: First) -> Option<Found>
    requires { count ≤ 479 }
    ensures { found_says result ≡ told_first count bank index }
{
    let under_add = || first_under(Gate::Add, count, count, bank, index);
    first_under(Gate::Xor, 2 * count, count, bank, index).or_else(under_add)
}

// One pass over the bank and one over the index, for all atoms under both gates; then the atoms in order.
pub fn search_rows(search: &Search<'_>, listed: &[u64], n: usize) -> Option<Found>
    requires { Lent search.now.w search.now.count search.now.atoms.now n listed.now search.now.target }
    ensures { found_says result ≡ try_residuals search.now.w search.now.count search.now.atoms.now n listed.now search.now.target }
{
    let mut work = [0u32; AREA];
    search_residual_map::inner::fill(&mut work, search);
    let atoms = search.atoms;
    let count = search.count;
    let bank = search_residual_map::inner::first_of(search, &work, 0, atoms, count);
    let index = search_residual_map::inner::first_of(search, &work, bank.at, listed, n);
    first_told(count, bank, index)
}
