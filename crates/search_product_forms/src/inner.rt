// What the product search calls with arrays that it has tested to be long enough.
ghost use Rattle.std.specs.Prelude.{◌≡◌, [], ◌+◌, ◌*◌, ◌≤◌, ◌<◌, length, get_or};
ghost use Rattle.expr_cost.specs.Cost.{info_of};
ghost use Rattle.search_product_forms.specs.Forms.{atom_form, pair_form};
ghost use Rattle.search_product_forms.specs.Refusals.{bad_atom, bad_atoms, bad_words, bad_pairs};
ghost use Rattle.search_product_forms.specs.Written.{Room, Short, Written, Paired};
ghost use Rattle.search_product_forms.specs.Lent.{forms_of};

use expr_cost::CostInfo;

// The token places of an atom.
const ATOM_TOKENS: usize = 6;

// The variables that an atom's formula is tested with.
const ATOM_VARIABLES: u32 = 6;

// The numbers of a pair.
const PAIR_WORDS: usize = 3;

// The number of the last gate.
const GATE_MAX: u32 = 4;

// The formulas of a lent bank and index: per atom of `count` one length, 6 opcodes, 6 operands; per pair of `n` gate, b, c.
#[derive(Clone, Copy)]
pub struct LentForms<'a> {
    pub count: usize,
    pub lengths: &'a [u32],
    pub ops: &'a [u8],
    pub operands: &'a [u64],
    pub n: usize,
    pub pairs: &'a [u32],
}

// Whether a pair has no gate or an atom slot that is not below the count.
fn bad_pair(gate: u32, b: u32, c: u32, count: usize) -> bool
    ensures { result ≡ bad_words count gate b c }
{
    (GATE_MAX < gate) | ((count <= b as usize) | (count <= c as usize))
}

impl<'a> LentForms<'a> {
    // Whether atom k has over 6 tokens or is no formula over six variables.
    fn bad_atom(&self, k: usize) -> bool
        requires { Room self.now.count (forms_of self.now) × (k < self.now.count) }
        ensures { result ≡ bad_atom (forms_of self.now) k }
    {
        let length = self.lengths[k] as usize;
        if ATOM_TOKENS < length {
            return true;
        }
        let base = ATOM_TOKENS * k;
        !expr::is_formula(
            ATOM_VARIABLES,
            length,
            &self.ops[base..base + ATOM_TOKENS],
            &self.operands[base..base + ATOM_TOKENS],
        )
    }

    // Whether one of the atoms is bad, however many are claimed.
    pub fn bad_atoms(&self) -> bool
        requires { Room self.now.count (forms_of self.now) }
        ensures { result ≡ bad_atoms self.now.count (forms_of self.now) }
    {
        for k in 0..self.count {
            if self.bad_atom(k) {
                return true;
            }
        }
        false
    }

    // Whether one of the pairs is bad.
    pub fn bad_pairs(&self) -> bool
        requires { 3 * self.now.n ≤ length self.now.pairs.now }
        ensures { result ≡ bad_pairs self.now.count self.now.n (forms_of self.now) }
    {
        let pairs = self.pairs;
        let count = self.count;
        for s in 0..self.n {
            let at = PAIR_WORDS * s;
            if bad_pair(pairs[at], pairs[at + 1], pairs[at + 2], count) {
                return true;
            }
        }
        false
    }

    // The cost of atom k's formula, from its tokens.
    pub fn atom_info(&self, k: usize) -> CostInfo
        requires { Written self.now.count (forms_of self.now) × (k < self.now.count) }
        ensures { result ≡ info_of (atom_form (forms_of self.now) k) }
    {
        let length = self.lengths[k] as usize;
        let base = ATOM_TOKENS * k;
        let whole = expr_cost::inner::cost_before(
            &self.ops[base..base + ATOM_TOKENS],
            &self.operands[base..base + ATOM_TOKENS],
            length,
        );
        whole.info
    }

    // The tokens of pair s, written out: b, c, gate.
    pub fn pair_tokens(&self, s: usize) -> u32
        requires { Short self.now.count self.now.lengths.now × (3 * s + 3 ≤ length self.now.pairs.now) × (get_or self.now.pairs.now (3 * s + 1) 0 < self.now.count) × (get_or self.now.pairs.now (3 * s + 2) 0 < self.now.count) }
        ensures { result ≡ get_or self.now.lengths.now (get_or self.now.pairs.now (3 * s + 1) 0) 0 + get_or self.now.lengths.now (get_or self.now.pairs.now (3 * s + 2) 0) 0 + 1 }
    {
        let at = PAIR_WORDS * s;
        let b = self.pairs[at + 1] as usize;
        let c = self.pairs[at + 2] as usize;
        self.lengths[b] + self.lengths[c] + 1
    }

    // The cost of pair s, written out.
    pub fn pair_info(&self, s: usize) -> CostInfo
        requires { Written self.now.count (forms_of self.now) × Paired self.now.count self.now.n (forms_of self.now) × (s < self.now.n) }
        ensures { result ≡ info_of (pair_form (forms_of self.now) s) }
    {
        let at = PAIR_WORDS * s;
        let g = row_gates::inner::gate_at(self.pairs[at]);
        let b = self.pairs[at + 1] as usize;
        let c = self.pairs[at + 2] as usize;
        let left = self.atom_info(b);
        let right = self.atom_info(c);
        left.under_gate(right, g)
    }
}
