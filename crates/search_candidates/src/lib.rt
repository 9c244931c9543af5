// The product filter as a call: `collect_mul_probe0_candidates` of template_decomposer.rs.
#![tactic(auto)]

pub mod inner;

ghost use Rattle.search_candidates.specs.Candidates.{Collected};

use limits::Refusal;
use search_filter::inner::{Residue, Sorted};

// Lists the slots whose first word f has p × f = t modulo 2^w, in order-list order, and answers how many, none for "not used". Refuses 2, 4, 5, 7, 8.
// Seven parameters: those of the export (the C interface).
pub fn collect_mul_probe0_candidates(
    w: u32,
    pair_count: usize,
    pair_rows: &[u64],
    order: &[u32],
    p: u64,
    t: u64,
    candidates: &mut [u32],
) -> Result<Option<u32>, Refusal>
    ensures { Collected w pair_count pair_rows.now order.now p t candidates.old candidates.new result }
{
    // no samples are taken for one sweep
    let pairs = Sorted {
        rows: pair_rows,
        order,
        n: pair_count,
        samples: &[],
    };
    inner::check(w, &pairs, p, t, candidates)?;
    if !search_equation::inner::is_used(p, t) {
        return Ok(None);
    }
    let Some(k) = search_equation::inner::solve(w, p, t) else {
        return Ok(Some(0));
    };
    let class = Residue {
        w,
        zeros: k.zeros,
        first: k.first,
    };
    let count = inner::collect(candidates, &pairs, class);
    Ok(Some(count as u32))
}
