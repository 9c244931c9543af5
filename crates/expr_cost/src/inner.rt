// What the crates above call with what they have tested.
ghost use Rattle.std.specs.Prelude.{◌≡◌, ◌||◌, max};
ghost use Rattle.expr_cost.specs.Cost.{leaf_info, under_unary, under_gate, is_nonlinear, info_unary, info_gate, Roomy};
ghost use Rattle.expr_cost.specs.Span.{Ends, Under, span_leaf, span_unary, span_gate, cost_before};

use crate::{Cost, CostInfo};
use expr::Token;
use row_gates::Gate;

// What a Mul with a variable under both operands adds to the size.
const PRODUCT_SIZE: u32 = 3;

// A cost, with the place where its formula begins.
#[derive(Clone, Copy)]
pub struct SpanCost {
    pub info: CostInfo,
    pub from: usize,
}

// The cost of the formula that ends before `to`, found by going down into its operands from the right, each shorter than the whole.
#[cycle(cost_before_cost_under)]
pub fn cost_before(ops: &[u8], operands: &[u64], to: usize) -> SpanCost
    requires { Ends ops.now operands.now to }
    ensures { result ≡ cost_before ops.now operands.now to }
{
    let last = to - 1;
    let t = expr::token_at(ops, operands, last);
    match t {
        Token::Constant(_) => SpanCost::leaf(false, last),
        Token::Variable(_) => SpanCost::leaf(true, last),
        Token::Bad => SpanCost::leaf(false, last),
        _ => cost_under(ops, operands, to, t),
    }
}

// The same where the last token t takes operands. Apart, since each call copies the slices that it passes on: a leaf passes none on.
#[cycle(cost_before_cost_under)]
fn cost_under(ops: &[u8], operands: &[u64], to: usize, t: Token) -> SpanCost
    requires { Under ops.now operands.now to t }
    ensures { result ≡ cost_before ops.now operands.now to }
{
    let right = cost_before(ops, operands, to - 1);
    match t {
        Token::Binary(g) => cost_before(ops, operands, right.from).under_gate(right, g),
        _ => right.under_unary(),
    }
}

impl SpanCost {
    fn leaf(varies: bool, from: usize) -> SpanCost
        ensures { result ≡ span_leaf varies from }
    {
        let info = CostInfo::leaf(varies);
        SpanCost { info, from }
    }

    fn under_unary(self) -> SpanCost
        requires { Roomy self.info.cost }
        ensures { result ≡ span_unary self }
    {
        let below = self.info;
        let info = below.under_unary();
        SpanCost {
            info,
            from: self.from,
        }
    }

    // With the right operand.
    fn under_gate(self, other: SpanCost, g: Gate) -> SpanCost
        requires { Roomy self.info.cost × Roomy other.info.cost }
        ensures { result ≡ span_gate g self other }
    {
        let a = self.info;
        let b = other.info;
        let info = a.under_gate(b, g);
        SpanCost {
            info,
            from: self.from,
        }
    }
}

impl Cost {
    pub fn under_unary(self) -> Cost
        requires { Roomy self }
        ensures { result ≡ under_unary self }
    {
        Cost {
            size: self.size + 1,
            products: self.products,
            depth: self.depth + 1,
        }
    }

    pub fn under_gate(self, other: Cost, nonlinear: bool) -> Cost
        requires { Roomy self × Roomy other }
        ensures { result ≡ under_gate nonlinear self other }
    {
        let depth = self.depth.max(other.depth) + 1;
        if nonlinear {
            Cost {
                size: self.size + other.size + PRODUCT_SIZE,
                products: self.products + other.products + 1,
                depth,
            }
        } else {
            Cost {
                size: self.size + other.size + 1,
                products: self.products + other.products,
                depth,
            }
        }
    }
}

impl CostInfo {
    pub fn leaf(varies: bool) -> CostInfo
        ensures { result ≡ leaf_info varies }
    {
        let cost = Cost {
            size: 1,
            products: 0,
            depth: 1,
        };
        CostInfo { cost, varies }
    }

    pub fn under_unary(self) -> CostInfo
        requires { Roomy self.cost }
        ensures { result ≡ info_unary self }
    {
        let below = self.cost;
        let cost = below.under_unary();
        CostInfo {
            cost,
            varies: self.varies,
        }
    }

    pub fn under_gate(self, other: CostInfo, g: Gate) -> CostInfo
        requires { Roomy self.cost × Roomy other.cost }
        ensures { result ≡ info_gate g self other }
    {
        let a = self.cost;
        let b = other.cost;
        let cost = a.under_gate(b, is_nonlinear(g, self.varies, other.varies));
        CostInfo {
            cost,
            // `|`: of `||` LLVM makes loads of four bytes, which wait for the single bytes just stored
            varies: self.varies | other.varies,
        }
    }
}

// Mul with a variable under both operands.
#[tactic(auto, unfolding(crate::specs::Cost::is_nonlinear))]
fn is_nonlinear(g: Gate, a: bool, b: bool) -> bool
    ensures { result ≡ is_nonlinear g a b }
{
    match g {
        Gate::Mul => a && b,
        _ => false,
    }
}
