// One formula of a test load, drawn with splitmix64 (document 02, 2.2).
#![tactic(auto)]

pub mod inner;

ghost use Rattle.std.specs.Prelude.{◌≡◌};
ghost use Rattle.limits.specs.Refusal.{says};
ghost use Rattle.load_draw.specs.Draw.{called};

use limits::Refusal;

// How many tokens were drawn, and the state handed on.
#[derive(Clone, Copy)]
pub struct DrawnFormula {
    pub count: usize,
    pub state: u64,
}

// Draws a formula of at most `limit` tokens into the first places of both arrays. Refuses 1, 2, 4, 6.
pub fn draw_formula(
    ops: &mut [u8],
    operands: &mut [u64],
    state: u64,
    nv: u32,
    w: u32,
    limit: usize,
) -> Result<DrawnFormula, Refusal>
    ensures value { says result ≡ (called state nv w limit ops.old operands.old).answer }
    ensures ops_after { ops.new ≡ (called state nv w limit ops.old operands.old).ops }
    ensures operands_after { operands.new ≡ (called state nv w limit ops.old operands.old).operands }
{
    inner::check(ops, operands, nv, w, limit)?;
    Ok(inner::draw(ops, operands, state, nv, w, limit))
}
