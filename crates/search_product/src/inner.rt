// What the product search is made of: its refusals, and its two stages one after the other.
ghost use Rattle.std.specs.Prelude.{◌≡◌, ◌^◌, ◌≤◌, length};
ghost use Rattle.limits.specs.Refusal.{refusal_of};
ghost use Rattle.row_lent.specs.Range.{reaches};
ghost use Rattle.search_product_trial.specs.Stages.{found_says};
ghost use Rattle.search_product_trial.specs.Searches.{IsLent};
ghost use Rattle.search_product.specs.Searched.{lent_short, lent_refusal, tried_all};

use limits::Refusal;
use search_product_trial::inner::{Found, Search};

// The token places of an atom, and the numbers of a pair.
const ATOM_TOKENS: usize = 6;

const PAIR_WORDS: usize = 3;

// Whether a lent array is shorter than its count needs.
fn too_short(search: &Search<'_>) -> bool
    ensures { result ≡ lent_short search.now }
{
    let forms = &search.forms;
    let atom_count = forms.count;
    let pair_count = forms.n;
    let atoms = search.atoms;
    if atoms.len() / row_gates::ROW_WORDS < atom_count {
        return true;
    }
    let listed = search.listed;
    if listed.len() / row_gates::ROW_WORDS < pair_count {
        return true;
    }
    let order = search.order;
    if order.len() < pair_count {
        return true;
    }
    let lengths = forms.lengths;
    if lengths.len() < atom_count {
        return true;
    }
    let ops = forms.ops;
    if ops.len() / ATOM_TOKENS < atom_count {
        return true;
    }
    let operands = forms.operands;
    if operands.len() / ATOM_TOKENS < atom_count {
        return true;
    }
    let pairs = forms.pairs;
    pairs.len() / PAIR_WORDS < pair_count
}

// Whether a word of the target, which are sixteen by its type, reaches 2^w.
fn target_reaches(target: &[u64; 16], w: u32) -> bool
    requires { w ≤ 64 }
    ensures words { result ≡ reaches (2 ^ w) target.now }
    ensures long { length target.now ≡ 16 }
{
    row_lent::inner::row_reaches(*target, w)
}

// Whether a product search is refused.
pub fn check(search: &Search<'_>) -> Result<(), Refusal>
    ensures refusal { refusal_of result ≡ lent_refusal search.now }
    ensures long { refusal_of result ≡ 0 → length search.now.target.now ≡ 16 }
{
    if limits::inner::bad_width(search.w) {
        return Err(Refusal::Width);
    }
    if too_short(search) {
        return Err(Refusal::ShortArray);
    }
    let target = search.target;
    if target_reaches(target, search.w) {
        return Err(Refusal::LargeWord);
    }
    let forms = &search.forms;
    if forms.bad_atoms() {
        return Err(Refusal::Formula);
    }
    let atom_count = forms.count;
    let pair_count = forms.n;
    if limits::ATOMS_MAX < atom_count {
        return Err(Refusal::Claim);
    }
    if limits::PAIRS_MAX < pair_count {
        return Err(Refusal::Claim);
    }
    if forms.bad_pairs() {
        return Err(Refusal::Claim);
    }
    if !index_order::inner::is_order(search.listed, pair_count, search.order) {
        return Err(Refusal::Order);
    }
    Ok(())
}

// Both stages: two atoms first, then an atom and a listed pair, where that is cheaper.
pub fn search_rows(search: &Search<'_>) -> Option<Found>
    requires { IsLent search.now }
    ensures { found_says result ≡ tried_all search.now }
{
    let first = search_product_atoms::inner::two_atoms(search);
    let best = search_product_pairs::inner::atom_and_pair(first, search);
    best.found
}
