// The residual search, 02's sums and xors: what `gate_residual` of row_gates gives, looked up as `ValMap::find` of template_decomposer.rs does; the order is 02's.
#![tactic(auto)]

pub mod inner;

ghost use Rattle.std.specs.Prelude.{◌≡◌};
ghost use Rattle.limits.specs.Refusal.{says_by};
ghost use Rattle.search_residual_trial.specs.Steps.{found_says};
ghost use Rattle.search_residual.specs.Answer.{completion};

use limits::Refusal;
use search_residual_trial::inner::{Found, Search};

// Finds the first atom that an atom, itself or another, or a listed pair completes to the target, under Xor, then under Add; in 02's order. Refuses 2, 4, 5, 7.
pub fn residual_search(
    w: u32,
    atom_count: usize,
    atom_rows: &[u64],
    pair_count: usize,
    pair_rows: &[u64],
    target: [u64; 16],
) -> Result<Option<Found>, Refusal>
    ensures { says_by found_says result ≡ completion w atom_count atom_rows.now pair_count pair_rows.now target }
{
    let search = Search {
        w,
        count: atom_count,
        atoms: atom_rows,
        target,
    };
    inner::check(&search, pair_rows, pair_count)?;
    Ok(inner::search_rows(&search, pair_rows, pair_count))
}
