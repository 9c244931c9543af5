// What the candidates are made of: the refusals and the listing.
ghost use Rattle.std.specs.Prelude.{◌≡◌, ◌≤◌, ◌<◌, length};
ghost use Rattle.limits.specs.Refusal.{refusal_of};
ghost use Rattle.search_filter.specs.Places.{Ordered};
ghost use Rattle.search_filter.specs.Sweeps.{in_class, Small};
ghost use Rattle.search_filter.specs.Lists.{IsSorted};
ghost use Rattle.search_candidates.specs.Candidates.{candidates_refusal};
ghost use Rattle.search_candidates.specs.Steps.{RunListed, Kept};

use limits::Refusal;
use search_filter::inner::{Residue, Sorted};

// Whether the candidates are refused.
pub fn check(w: u32, pairs: &Sorted<'_>, p: u64, t: u64, candidates: &[u32]) -> Result<(), Refusal>
    ensures { refusal_of result ≡ candidates_refusal w pairs.now.n pairs.now.rows.now pairs.now.order.now p t candidates.now }
{
    if limits::inner::bad_width(w) {
        return Err(Refusal::Width);
    }
    let n = pairs.n;
    if pairs.rows.len() / row_gates::ROW_WORDS < n {
        return Err(Refusal::ShortArray);
    }
    if pairs.order.len() < n {
        return Err(Refusal::ShortArray);
    }
    if candidates.len() < n {
        return Err(Refusal::ShortArray);
    }
    let mask = arith::bitmask(w);
    if mask < p {
        return Err(Refusal::LargeWord);
    }
    if mask < t {
        return Err(Refusal::LargeWord);
    }
    if limits::PAIRS_MAX < n {
        return Err(Refusal::Claim);
    }
    if !index_order::inner::is_order(pairs.rows, n, pairs.order) {
        return Err(Refusal::Order);
    }
    Ok(())
}

// Writes the run of slots from place `at` on that share one first word to the list, from place k on, and answers where it ends.
fn list_run(list: &mut [u32], listed: &[u64], order: &[u32], n: usize, at: usize, k: usize) -> usize
    requires { Ordered n listed.now order.now × (at < n) × (k ≤ at) × (n ≤ length list.old) }
    ensures { RunListed n listed.now order.now list.old list.new at k result }
{
    let word = search_filter::inner::word_at(listed, order, n, at);
    for i in at..n {
        if search_filter::inner::word_at(listed, order, n, i) != word {
            return i;
        }
        list[k + (i - at)] = order[i];
    }
    n
}

// Writes the slots of the class to the list, in order-list order, and answers how many.
pub fn collect(list: &mut [u32], pairs: &Sorted<'_>, class: Residue) -> usize
    requires { IsSorted pairs.now × Small class × (pairs.now.n ≤ length list.old) }
    ensures { Kept (in_class class pairs.now.rows.now) pairs.now.n pairs.now.order.now list.old list.new result }
{
    let n = pairs.n;
    let mut s = search_filter::inner::first_place(pairs, class);
    let mut k: usize = 0;
    // no count: the next place is told by the sweep
    while s.at < n {
        let at = s.at;
        let end = list_run(list, pairs.rows, pairs.order, n, at, k);
        k += end - at;
        s = search_filter::inner::next_from(pairs, class, s, end);
    }
    k
}
