// The product search: template_decomposer.rs, `layer2`'s product loop, after a first stage over two atoms; the cheapest of both (02, 2.4).
#![tactic(auto)]

pub mod inner;

ghost use Rattle.std.specs.Prelude.{◌≡◌};
ghost use Rattle.limits.specs.Refusal.{says_by};
ghost use Rattle.search_product_trial.specs.Stages.{found_says};
ghost use Rattle.search_product.specs.Searched.{searched};

use limits::Refusal;
use search_product_trial::inner::{Found, Search};

// Finds the cheapest product of two atoms, or of an atom and a listed pair, that is the target: by the cost of the whole written-out formula, and among equal
// costs the earlier in 01's order. Refuses 2, 4, 5, 6, 7, 8.
pub fn product_search(search: &Search<'_>) -> Result<Option<Found>, Refusal>
    ensures { says_by found_says result ≡ searched search.now }
{
    inner::check(search)?;
    Ok(inner::search_rows(search))
}
