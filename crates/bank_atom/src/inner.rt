// What the crates above call with a width and formulas that they have tested.
ghost use Rattle.std.specs.Prelude.{◌≡◌, [], ◌∷◌, ◌+◌, ◌≤◌, ◌<◌};
ghost use Rattle.expr.specs.declared.Token.TheVariants.{Variable, Binary};
ghost use Rattle.expr.specs.Formula.{opcode_of};
ghost use Rattle.expr_cost.specs.Cost.{is_nonlinear, under_gate, Roomy};
ghost use Rattle.probe.specs.FormulaRow.{row_of};
ghost use Rattle.bank_spec.specs.Push.{atom_of};
ghost use Rattle.bank_spec.specs.Bank.{or_all};
ghost use Rattle.bank_atom.specs.Entry.{entry_of, leaf_of, unary_of, unary_row, Longer, Joined, GateText, IsConstant, Extends, UnderUnary, Joins, UnderGate};
ghost use Rattle.bank_atom.specs.Seeding.{WithSeed, AreSeeds};

use crate::{Entry, Formula, SEED_WORDS, Seeds, UNUSED, Unary};
use expr_cost::{Cost, CostInfo};
use probe_points::{POINTS, Point};
use row_gates::{Gate, ROW_WORDS};

// ---- atoms

// An atom whose formula is one token.
fn leaf(opcode: u8, operand: u64, row: [u64; 16]) -> Entry
    ensures { result ≡ leaf_of opcode operand row }
{
    let text = Formula {
        len: 1,
        ops: [opcode, UNUSED, UNUSED, UNUSED, UNUSED, UNUSED],
        operands: [operand, 0, 0, 0, 0, 0],
    };
    let cost = Cost {
        size: 1,
        products: 0,
        depth: 1,
    };
    Entry { text, cost, row }
}

// The atom of a constant: its row needs no points.
pub fn constant(w: u32, v: u64) -> Entry
    requires { w ≤ 64 }
    ensures { IsConstant w v result }
{
    let word = arith::reduce(v, w);
    let row = [word; ROW_WORDS];
    leaf(0, v, row)
}

fn variable_row(w: u32, points: [Point; 16], i: usize) -> [u64; 16]
    requires { (w ≤ 64) × (i < 6) }
    ensures { result ≡ row_of w points (Variable i ∷ []) }
{
    let mut row = [0u64; ROW_WORDS];
    for k in 0..POINTS {
        let p = points[k];
        row[k] = arith::reduce(p.words[i], w);
    }
    row
}

// The atom of variable i.
pub fn variable(w: u32, points: [Point; 16], i: u32) -> Entry
    requires { (w ≤ 64) × (i < 6) }
    ensures { result ≡ entry_of (atom_of w points (Variable i ∷ [])) }
{
    let row = variable_row(w, points, i as usize);
    leaf(1, i as u64, row)
}

// One token more, whose operand is 0.
fn with_token(f: Formula, opcode: u8) -> Formula
    requires { f.len < 6 }
    ensures { Longer f opcode result }
{
    let len = f.len;
    let at = len as usize;
    let mut ops = f.ops;
    let mut operands = f.operands;
    ops[at] = opcode;
    operands[at] = 0;
    Formula {
        len: len + 1,
        ops,
        operands,
    }
}

// The tokens of a, then those of b.
fn joined(a: Formula, b: Formula) -> Formula
    requires { a.len + b.len ≤ 6 }
    ensures { Joined a b result }
{
    let from = a.len as usize;
    let count = b.len as usize;
    let mut ops = a.ops;
    let mut operands = a.operands;
    for k in 0..count {
        ops[from + k] = b.ops[k];
        operands[from + k] = b.operands[k];
    }
    Formula {
        len: a.len + b.len,
        ops,
        operands,
    }
}

fn unary_lane(v: u64, u: Unary, w: u32) -> u64
    requires { w ≤ 64 }
    ensures { result ≡ unary_of u w v }
{
    match u {
        Unary::Neg => arith::mod_neg(v, w),
        Unary::Not => arith::mod_not(v, w),
    }
}

fn unary_row(row: [u64; 16], u: Unary, w: u32) -> [u64; 16]
    requires { w ≤ 64 }
    ensures { result ≡ unary_row u w row }
{
    let mut out = [0u64; ROW_WORDS];
    for k in 0..ROW_WORDS {
        out[k] = unary_lane(row[k], u, w);
    }
    out
}

// Neg or Not of an atom's formula.
pub fn under_unary(e: Entry, u: Unary, w: u32) -> Entry
    requires { Extends w e }
    ensures { UnderUnary w u e result }
{
    let below = e.text;
    let below_cost = e.cost;
    let below_row = e.row;
    let text = with_token(below, u8::from(u));
    let cost = below_cost.under_unary();
    let row = unary_row(below_row, u, w);
    Entry { text, cost, row }
}

// The opcode of a gate. A function: `Gate` and `u8` are both from elsewhere, so a `From` can't stand here.
pub fn gate_opcode(g: Gate) -> u8
    ensures { result ≡ opcode_of (Binary g) }
{
    match g {
        Gate::And => 4,
        Gate::Or => 5,
        Gate::Xor => 6,
        Gate::Add => 2,
        Gate::Mul => 3,
    }
}

fn gate_text(a: Formula, b: Formula, g: Gate) -> Formula
    requires { a.len + b.len < 6 }
    ensures { GateText g a b result }
{
    let both = joined(a, b);
    with_token(both, gate_opcode(g))
}

fn gate_cost(a: Cost, b: Cost, g: Gate, left: bool, right: bool) -> Cost
    requires { Roomy a × Roomy b }
    ensures { result ≡ under_gate (is_nonlinear g left right) a b }
{
    let x = CostInfo {
        cost: a,
        varies: left,
    };
    let y = CostInfo {
        cost: b,
        varies: right,
    };
    let info = x.under_gate(y, g);
    info.cost
}

// The gate of two atoms' formulas. The two marks say whether a variable stands in each: the cost depends on it.
pub fn under_gate(a: Entry, b: Entry, g: Gate, left: bool, right: bool, w: u32) -> Entry
    requires { Joins w a b }
    ensures { UnderGate w g left right a b result }
{
    let a_text = a.text;
    let b_text = b.text;
    let a_cost = a.cost;
    let b_cost = b.cost;
    let a_row = a.row;
    let b_row = b.row;
    let text = gate_text(a_text, b_text, g);
    let cost = gate_cost(a_cost, b_cost, g, left, right);
    let row = row_gates::inner::gate_row(a_row, b_row, g, w);
    Entry { text, cost, row }
}

// ---- the seeds

// v after the seeds so far, unless it is 0 or `most` are there.
fn with_seed(s: Seeds, v: u64, most: u32) -> Seeds
    requires { (s.count ≤ most) × (most ≤ 8) }
    ensures { WithSeed s v most result }
{
    let count = s.count;
    if v == 0 {
        return s;
    }
    if count < most {
        let at = count as usize;
        let mut words = s.words;
        words[at] = v;
        return Seeds {
            count: count + 1,
            words,
        };
    }
    s
}

// The OR of the target row, then its first seven nonzero words; zero is never among them.
pub fn seeds_of(target: [u64; 16]) -> Seeds
    ensures { AreSeeds target result }
{
    let none = Seeds {
        count: 0,
        words: [0; 8],
    };
    let mut s = with_seed(none, or_all(target), 1);
    let most = s.count + SEED_WORDS;
    for i in 0..ROW_WORDS {
        s = with_seed(s, target[i], most);
    }
    s
}

// From the last word to the first, as `or_all` joins them.
fn or_all(target: [u64; 16]) -> u64
    ensures { result ≡ or_all target }
{
    let mut all: u64 = 0;
    for i in (0..ROW_WORDS).rev() {
        all = target[i] | all;
    }
    all
}
