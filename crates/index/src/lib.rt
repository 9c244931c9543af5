// The pair index over a lent bank: `build_inner_compositions` of template_decomposer.rs.
#![tactic(auto)]

pub mod inner;

ghost use Rattle.index.specs.Build.{IndexBuilt, arrays_of};

use inner::{Asked, Lengths};
use limits::Refusal;

// How many pairs are listed, and whether the build was ended by a new row.
#[derive(Clone, Copy)]
pub struct BuiltIndex {
    pub pairs: u32,
    pub cut: bool,
}

// Lists the pairs of the first `atom_count` lent rows, at most `limit`, with their rows and the order list. What `work` holds doesn't matter.
// Refuses 2, 3, 4, 7. Its parameters are those of the call of the C interface, one by one.
pub fn build_index(
    w: u32,
    atom_count: usize,
    atom_rows: &[u64],
    limit: usize,
    pairs: &mut [u32],
    pair_rows: &mut [u64],
    order: &mut [u32],
    work: &mut [u32],
) -> Result<BuiltIndex, Refusal>
    ensures { IndexBuilt w atom_count atom_rows.now limit (arrays_of pairs.old pair_rows.old order.old work.old) (arrays_of pairs.new pair_rows.new order.new work.new) result }
{
    let asked = Asked {
        w,
        count: atom_count,
        limit,
    };
    let lengths = Lengths {
        rows: atom_rows.len(),
        pairs: pairs.len(),
        pair_rows: pair_rows.len(),
        order: order.len(),
        work: work.len(),
    };
    inner::check(asked, lengths)?;
    let made = inner::build(work, pairs, pair_rows, order, atom_rows, asked);
    Ok(BuiltIndex {
        pairs: made.pairs as u32,
        cut: made.cut,
    })
}
