// The cost of a formula, and the order of costs. From expr_cost.rs.
#![tactic(auto)]

pub mod inner;

ghost use Rattle.std.specs.Prelude.{◌≡◌};
ghost use Rattle.limits.specs.Refusal.{says};
ghost use Rattle.expr_cost.specs.Cost.{is_better};
ghost use Rattle.expr_cost.specs.Answers.{costed};

use limits::Refusal;

// Weighted size, nonlinear products, depth. In this order they are compared.
#[derive(Clone, Copy, Debug, PartialEq, Eq, PartialOrd, Ord)]
pub struct Cost {
    pub size: u32,
    pub products: u32,
    pub depth: u32,
}

// A cost, with the mark whether a variable stands in the formula.
#[derive(Clone, Copy)]
pub struct CostInfo {
    pub cost: Cost,
    pub varies: bool,
}

// The cost of a formula. Refuses 1, 4, 6.
pub fn compute_cost(
    nv: u32,
    token_count: usize,
    ops: &[u8],
    operands: &[u64],
) -> Result<Cost, Refusal>
    ensures { says result ≡ costed nv token_count ops.now operands.now }
{
    if limits::inner::bad_count(nv) {
        return Err(Refusal::VariableCount);
    }
    if expr::inner::too_short(token_count, ops, operands) {
        return Err(Refusal::ShortArray);
    }
    if !expr::is_formula(nv, token_count, ops, operands) {
        return Err(Refusal::Formula);
    }
    let whole = inner::cost_before(ops, operands, token_count);
    Ok(whole.info.cost)
}

impl Cost {
    // Strictly smaller in (size, products, depth), first difference decides.
    #[tactic(auto, using(crate::proofs::Costs::derived_order, crate::proofs::Costs::by_size, crate::proofs::Costs::by_products, crate::proofs::Costs::by_depth))]
    pub fn is_better(self, other: Cost) -> bool
        ensures { result ≡ is_better self other }
    {
        self < other
    }
}
