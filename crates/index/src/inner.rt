// What the index build is made of: its refusals, and the build into arrays that are tested.
ghost use Rattle.std.specs.Prelude.{◌≡◌, ◌≤◌};
ghost use Rattle.limits.specs.Limits.{pairs_max};
ghost use Rattle.limits.specs.Refusal.{refusal_of};
ghost use Rattle.index.specs.Build.{too_short};
ghost use Rattle.index.specs.Steps.{Fits, Made, asked_refusal};

use index_maps::inner::Job;
use index_spec::PAIR_WORDS;
use index_trial::inner::{Build, Tally};
use limits::{ATOMS_MAX, PAIRS_MAX, Refusal};

// The words of the work area for each pair and atom.
const WORK_WORDS: usize = 4;

// What is asked of a build: the width, how many atoms and at most how many pairs.
#[derive(Clone, Copy)]
pub struct Asked {
    pub w: u32,
    pub count: usize,
    pub limit: usize,
}

// How long the lent arrays are.
#[derive(Clone, Copy)]
pub struct Lengths {
    pub rows: usize,
    pub pairs: usize,
    pub pair_rows: usize,
    pub order: usize,
    pub work: usize,
}

// Whether an array is too short: refusal 4.
fn too_short(count: usize, limit: usize, lengths: Lengths) -> bool
    requires { limit ≤ pairs_max }
    ensures { result ≡ too_short count limit lengths.rows lengths.pairs lengths.pair_rows lengths.order lengths.work }
{
    lengths.rows / row_gates::ROW_WORDS < count
        || lengths.pairs / PAIR_WORDS < limit
        || lengths.pair_rows / row_gates::ROW_WORDS < limit
        || lengths.order < limit
        || lengths.work / WORK_WORDS < limit + ATOMS_MAX
}

// Whether a build is refused.
pub fn check(asked: Asked, lengths: Lengths) -> Result<(), Refusal>
    ensures { refusal_of result ≡ asked_refusal asked lengths }
{
    if limits::inner::bad_width(asked.w) {
        return Err(Refusal::Width);
    }
    if PAIRS_MAX < asked.limit {
        return Err(Refusal::Limit);
    }
    if too_short(asked.count, asked.limit, lengths) {
        return Err(Refusal::ShortArray);
    }
    if ATOMS_MAX < asked.count {
        return Err(Refusal::Claim);
    }
    Ok(())
}

// The index, its rows and its order list, in arrays that are long enough.
pub fn build(
    work: &mut [u32],
    pairs: &mut [u32],
    listed: &mut [u64],
    order: &mut [u32],
    atoms: &[u64],
    asked: Asked,
) -> Tally
    requires { Fits asked.w asked.count asked.limit atoms.now work.old pairs.old listed.old order.old }
    ensures { Made asked.w asked.count asked.limit atoms.now pairs.old listed.old order.old pairs.new listed.new order.new result }
{
    let Asked { w, count, limit } = asked;
    let bits = index_maps::inner::map_bits(limit, count);
    let job = Job {
        w,
        count,
        limit,
        bits,
    };
    index_maps::inner::prepare(work, atoms, job);
    let mut build = Build {
        job,
        work: &mut *work,
        pairs,
        listed: &mut *listed,
        atoms,
    };
    let tally = index_loops::inner::try_gates(&mut build);
    index_sort::inner::sort_order(order, work, listed, tally.pairs);
    tally
}
