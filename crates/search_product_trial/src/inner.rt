// What the stages of the product search call with rows that are long enough and a target and formulas that are tested.
ghost use Rattle.std.specs.Prelude.{◌≡◌, cond, List, ℕ, ◌+◌, ◌*◌, ◌≤◌, ◌<◌, leb, length};
ghost use Rattle.std.proofs.Math.Option.{none};
ghost use Rattle.row_gates.specs.declared.Gate.TheVariants.{Mul};
ghost use Rattle.expr_cost.specs.Cost.{info_gate, is_better, Roomy};
ghost use Rattle.search_product_forms.specs.Forms.{Forms};
ghost use Rattle.search_product_forms.specs.Written.{Written, Paired};
ghost use Rattle.search_product_forms.specs.Lent.{forms_of, forms_with};
ghost use Rattle.search_product_trial.specs.Trying.{Product};
ghost use Rattle.search_product_trial.specs.Stages.{Keeps, Offered, best_of};
ghost use Rattle.search_product_trial.specs.Steps.{fits_at, Target, MayFit};

use expr_cost::{Cost, CostInfo};
use row_gates::{Gate, ROW_WORDS};
use row_lent::{AtomSlot, PairSlot};
use search_product_forms::inner::LentForms;

// What a search is over: the formulas of a lent bank and index, the atoms' rows, the listed pairs' rows and their order list, and a target of a width.
#[derive(Clone, Copy)]
pub struct Search<'a> {
    pub forms: LentForms<'a>,
    pub atoms: &'a [u64],
    pub listed: &'a [u64],
    pub order: &'a [u32],
    pub target: &'a [u64; 16],
    pub w: u32,
}

// A product that fits. Not the residual search's answer, which has a gate.
#[derive(Clone, Copy)]
pub enum Found {
    Atoms(AtomSlot, AtomSlot),
    AtomPair(AtomSlot, PairSlot),
}

// The cheapest product so far, with its cost.
#[derive(Clone, Copy)]
pub struct Best {
    pub found: Option<Found>,
    pub cost: Cost,
}

// The size of nothing, which is dearer than every formula: it loses every comparison, so that none looks whether there is something.
const NO_SIZE: u32 = 4294967295;

// Whether row a of xs times row b of ys is the target. Stops at the first word that isn't.
pub fn fits(xs: &[u64], a: usize, ys: &[u64], b: usize, target: &[u64], w: u32) -> bool
    requires { (16 * a + 16 ≤ length xs.now) × (16 * b + 16 ≤ length ys.now) × Target w target.now }
    ensures { result ≡ fits_at w target.now xs.now a ys.now b }
{
    let x = ROW_WORDS * a;
    let y = ROW_WORDS * b;
    for j in 0..ROW_WORDS {
        if arith::mod_mul(xs[x + j], ys[y + j], w) != target[j] {
            return false;
        }
    }
    true
}

// Whether a product of row a of xs can be the target: each word's equation has a solution.
pub fn may_fit(xs: &[u64], a: usize, target: &[u64], w: u32) -> bool
    requires { (16 * a + 16 ≤ length xs.now) × Target w target.now }
    ensures { MayFit w target.now xs.now a result }
{
    let x = ROW_WORDS * a;
    for k in 0..ROW_WORDS {
        let p = arith::reduce(xs[x + k], w);
        if !search_equation::inner::is_solvable(p, target[k]) {
            return false;
        }
    }
    true
}

impl Best {
    // Nothing is kept yet.
    pub fn nothing() -> Best
        ensures { (f : Forms) → Keeps f none result }
    {
        let cost = Cost {
            size: NO_SIZE,
            products: 0,
            depth: 0,
        };
        Best { found: None, cost }
    }

    // Whether a formula of so many tokens could be cheaper: its size is at least that.
    pub fn may_beat(self, tokens: u32) -> bool
        ensures { result ≡ leb tokens self.cost.size }
    {
        tokens <= self.cost.size
    }

    // Keeps a product of formulas with these costs instead, where its own is strictly better.
    fn or_product(self, found: Found, left: CostInfo, right: CostInfo) -> Best
        requires { Roomy left.cost × Roomy right.cost }
        ensures { result ≡ cond (is_better (info_gate Mul left right).cost self.cost) (best_of found (info_gate Mul left right).cost) self }
    {
        let whole = left.under_gate(right, Gate::Mul);
        let cost = whole.cost;
        let old = self.cost;
        if cost.is_better(old) {
            Best {
                found: Some(found),
                cost,
            }
        } else {
            self
        }
    }
}

// Offers the product of atoms a and b, which fits.
pub fn offer_atoms(best: Best, forms: &LentForms<'_>, a: usize, b: usize) -> Best
    requires { Written forms.now.count (forms_of forms.now) × (a < forms.now.count) × (b < forms.now.count) }
    ensures { (pairs : List ℕ) → Offered (forms_with forms.now pairs) (Product.of_atoms a b) best result }
{
    if !best.may_beat(forms.lengths[a] + forms.lengths[b] + 1) {
        return best;
    }
    let left = forms.atom_info(a);
    let right = forms.atom_info(b);
    let first = a as u32;
    let second = b as u32;
    best.or_product(Found::Atoms(AtomSlot(first), AtomSlot(second)), left, right)
}

// Offers the product of atom a and pair s, which fits.
pub fn offer_pair(best: Best, forms: &LentForms<'_>, a: usize, s: usize) -> Best
    requires { Written forms.now.count (forms_of forms.now) × Paired forms.now.count forms.now.n (forms_of forms.now) × (forms.now.n ≤ 262144) × (a < forms.now.count) × (s < forms.now.n) }
    ensures { Offered (forms_of forms.now) (Product.of_pair a s) best result }
{
    let inner = forms.pair_tokens(s);
    if !best.may_beat(forms.lengths[a] + inner + 1) {
        return best;
    }
    let left = forms.atom_info(a);
    let right = forms.pair_info(s);
    let first = a as u32;
    let second = s as u32;
    best.or_product(
        Found::AtomPair(AtomSlot(first), PairSlot(second)),
        left,
        right,
    )
}
