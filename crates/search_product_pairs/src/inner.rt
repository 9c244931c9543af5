// What the product search calls with rows, counts, formulas and an order list that it has tested.
ghost use Rattle.std.specs.Prelude.{map, ◌+◌, ◌*◌, ◌≤◌, ◌<◌, length, take};
ghost use Rattle.arrays.specs.Lists.{count_up};
ghost use Rattle.search_filter.specs.Places.{Ordered, Sampled};
ghost use Rattle.search_filter.specs.Sweeps.{Small};
ghost use Rattle.search_product_forms.specs.Lent.{forms_of};
ghost use Rattle.search_product_forms.specs.Written.{Paired};
ghost use Rattle.search_product_trial.specs.Trying.{Product};
ghost use Rattle.search_product_trial.specs.Steps.{fits_at, Target, Next};
ghost use Rattle.search_product_trial.specs.Searches.{IsLent, AtomsLent, TriedIn, slots_tried, pair_trials};
ghost use Rattle.search_product_pairs.specs.Steps.{Narrows, Stopped};

use row_gates::ROW_WORDS;
use search_filter::inner::{Residue, Sorted};
use search_product_trial::inner::{Best, Search};

// Room for the samples of all pairs.
const SAMPLES_MAX: usize = 4096;

// With no more pairs than these, the samples cost more than they save.
const UNSAMPLED_MAX: usize = 4096;

// An atom's product with a pair has four tokens more than the atom at least.
const OTHER_TOKENS: u32 = 4;

// Walks the run of places from `at` on that share one first word: Ok is the first whose pair fits atom a, Err the place after the run, where none does. The second words sort out most.
// Innermost: plain slices, not the search that they are of.
fn walk_run(
    atoms: &[u64],
    a: usize,
    listed: &[u64],
    order: &[u32],
    n: usize,
    at: usize,
    target: &[u64],
    w: u32,
) -> Result<usize, usize>
    requires { Ordered n listed.now order.now × (at < n) × (16 * a + 16 ≤ length atoms.now) × Target w target.now }
    ensures { Stopped (fits_at w target.now atoms.now a listed.now) n order.now at result }
{
    let first = order[at] as usize;
    let word = listed[ROW_WORDS * first];
    let p = atoms[ROW_WORDS * a + 1];
    let t = target[1];
    for k in at..n {
        let slot = order[k] as usize;
        if listed[ROW_WORDS * slot] != word {
            return Err(k);
        }
        if arith::mod_mul(p, listed[ROW_WORDS * slot + 1], w) == t {
            if search_product_trial::inner::fits(atoms, a, listed, slot, target, w) {
                return Ok(k);
            }
        }
    }
    Err(n)
}

// Atom a with the listed pairs, by the order list: none fits but those of the class.
fn try_class(best: Best, search: &Search<'_>, a: usize, samples: &[u64], class: Residue) -> Best
    requires { IsLent search.now × Sampled search.now.forms.n search.now.listed.now search.now.order.now samples.now (length samples.now) × Small class × Narrows search.now.w search.now.target.now search.now.atoms.now a search.now.listed.now class × (a < search.now.forms.count) }
    ensures { TriedIn search.now (map (Product.of_pair a) (take search.now.forms.n search.now.order.now)) best result }
{
    let atoms = search.atoms;
    let listed = search.listed;
    let order = search.order;
    let n = search.forms.n;
    let target = search.target;
    let w = search.w;
    let mut kept = best;
    let sorted = Sorted {
        rows: listed,
        order,
        n,
        samples,
    };
    let mut place = search_filter::inner::first_place(&sorted, class);
    // no count: the next place is told by the sweep
    while place.at < n {
        match walk_run(atoms, a, listed, order, n, place.at, target, w) {
            Ok(at) => {
                let s = order[at] as usize;
                kept = search_product_trial::inner::offer_pair(kept, &search.forms, a, s);
                place = search_filter::inner::next_from(&sorted, class, place, at + 1);
            }
            Err(end) => {
                place = search_filter::inner::next_from(&sorted, class, place, end);
            }
        }
    }
    kept
}

// The first pair from slot `from` on that fits atom a; n, the list's end, if none does, as with atoms. The second words sort out most: where no filter is used, any first word may fit.
// Not one function with that of the atoms: another word sorts out, read from other places.
// Innermost: plain slices, not the search that they are of.
fn next_slot(
    atoms: &[u64],
    a: usize,
    listed: &[u64],
    from: usize,
    n: usize,
    target: &[u64],
    w: u32,
) -> usize
    requires { (16 * a + 16 ≤ length atoms.now) × (n ≤ 262144) × (16 * n ≤ length listed.now) × Target w target.now × (from ≤ n) }
    ensures { Next (fits_at w target.now atoms.now a listed.now) n from result }
{
    let p = atoms[ROW_WORDS * a + 1];
    let t = target[1];
    for s in from..n {
        if arith::mod_mul(p, listed[ROW_WORDS * s + 1], w) == t {
            if search_product_trial::inner::fits(atoms, a, listed, s, target, w) {
                return s;
            }
        }
    }
    n
}

// Atom a with the listed pairs, by slot.
fn try_slots(best: Best, search: &Search<'_>, a: usize) -> Best
    requires { AtomsLent search.now × Paired search.now.forms.count search.now.forms.n (forms_of search.now.forms) × (search.now.forms.n ≤ 262144) × (16 * search.now.forms.n ≤ length search.now.listed.now) × (a < search.now.forms.count) }
    ensures { TriedIn search.now (map (Product.of_pair a) (count_up 0 search.now.forms.n)) best result }
{
    let atoms = search.atoms;
    let listed = search.listed;
    let n = search.forms.n;
    let target = search.target;
    let w = search.w;
    let mut kept = best;
    let mut s = next_slot(atoms, a, listed, 0, n, target, w);
    // no count: the next slot is the next that fits
    while s < n {
        kept = search_product_trial::inner::offer_pair(kept, &search.forms, a, s);
        s = next_slot(atoms, a, listed, s + 1, n, target, w);
    }
    kept
}

// Atom a with the listed pairs, in the order in which they are tried with it. One that has too many tokens by itself, or that no row can fit, is passed over.
fn try_pairs(best: Best, search: &Search<'_>, a: usize, samples: &[u64]) -> Best
    requires { IsLent search.now × Sampled search.now.forms.n search.now.listed.now search.now.order.now samples.now (length samples.now) × (a < search.now.forms.count) }
    ensures { TriedIn search.now (map (Product.of_pair a) (slots_tried search.now a)) best result }
{
    if !best.may_beat(search.forms.lengths[a] + OTHER_TOKENS) {
        return best;
    }
    let atoms = search.atoms;
    let target = search.target;
    let w = search.w;
    if !search_product_trial::inner::may_fit(atoms, a, target, w) {
        return best;
    }
    let p = arith::reduce(atoms[ROW_WORDS * a], w);
    let t = target[0];
    if search_equation::inner::is_used(p, t) {
        let Some(k) = search_equation::inner::solve(w, p, t) else {
            return best;
        };
        let class = Residue {
            w,
            zeros: k.zeros,
            first: k.first,
        };
        return try_class(best, search, a, samples, class);
    }
    try_slots(best, search, a)
}

// Every atom, ascending, with every listed pair. The samples narrow each look-up in the order list.
fn search_pairs(best: Best, search: &Search<'_>, samples: &[u64]) -> Best
    requires { IsLent search.now × Sampled search.now.forms.n search.now.listed.now search.now.order.now samples.now (length samples.now) }
    ensures { TriedIn search.now (pair_trials search.now) best result }
{
    let mut kept = best;
    for a in 0..search.forms.count {
        kept = try_pairs(kept, search, a, samples);
    }
    kept
}

// The second stage, with samples: apart, so that nothing clears their array where it isn't used.
fn sampled_pairs(best: Best, search: &Search<'_>) -> Best
    requires { IsLent search.now }
    ensures { TriedIn search.now (pair_trials search.now) best result }
{
    let mut samples: [u64; SAMPLES_MAX] = [0; SAMPLES_MAX];
    let m = search_filter::inner::sample(&mut samples, search.listed, search.order, search.forms.n);
    search_pairs(best, search, &samples[..m])
}

// The second stage, from what the first kept. Few pairs are searched with no samples.
pub fn atom_and_pair(best: Best, search: &Search<'_>) -> Best
    requires { IsLent search.now }
    ensures { TriedIn search.now (pair_trials search.now) best result }
{
    if search.forms.n > UNSAMPLED_MAX {
        return sampled_pairs(best, search);
    }
    search_pairs(best, search, &[])
}
