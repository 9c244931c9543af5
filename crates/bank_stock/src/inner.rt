// What the bank's build calls with a width, a count and a place that it has tested.
ghost use Rattle.std.specs.Prelude.{◌≡◌, [], ◌∷◌, ◌≤◌, ◌<◌};
ghost use Rattle.row_gates.specs.declared.Gate.TheVariants.{Add};
ghost use Rattle.expr.specs.declared.Token.TheVariants.{Variable, Binary, Neg};
ghost use Rattle.bank_spec.specs.Push.{atom_of};
ghost use Rattle.bank_atom.specs.Entry.{entry_of, IsConstant};
ghost use Rattle.bank_stock.specs.declared.Cursor.TheVariants as Place;
ghost use Rattle.bank_stock.specs.Cursor.{Stands, first_of, is_done, constant_at, variable_at, form_of, skipped, difference_from, next_of};

use crate::Cursor;
use bank_atom::{Entry, Unary};
use probe_points::Point;
use row_gates::{GATES, Gate};

// Constants of the stock, and how many of them, the first, are the numbers of their places: 0, 1, 2.
const CONSTANTS: u32 = 4;

const OWN_NUMBERS: u32 = 3;

// Forms of each variable.
const FORMS: u32 = 3;

// Where the stock begins.
pub fn first() -> Cursor
    ensures { result ≡ first_of }
{
    Cursor::Constant(0)
}

// Whether nothing of the stock is left.
pub fn is_done(at: Cursor) -> bool
    ensures { result ≡ is_done at }
{
    match at {
        Cursor::Constant(_) => false,
        Cursor::Variable(_, _) => false,
        Cursor::Pair(_, _, _) => false,
        Cursor::Difference(_, _) => false,
        Cursor::Done => true,
    }
}

// Constant k of the stock: k itself, and 2^w - 1 as the last.
fn constant_at(w: u32, k: u32) -> Entry
    requires { w ≤ 64 }
    ensures { IsConstant w (constant_at w k) result }
{
    if k < OWN_NUMBERS {
        bank_atom::inner::constant(w, k as u64)
    } else {
        bank_atom::inner::constant(w, arith::bitmask(w))
    }
}

// Form k of variable i: v, Neg v, Not v.
fn variable_at(w: u32, points: [Point; 16], i: u32, k: u32) -> Entry
    requires { (w ≤ 64) × (i < 6) }
    ensures { result ≡ entry_of (atom_of w points (variable_at i k)) }
{
    let v = bank_atom::inner::variable(w, points, i);
    if k == 0 {
        return v;
    }
    if k == 1 {
        return bank_atom::inner::under_unary(v, Unary::Neg, w);
    }
    bank_atom::inner::under_unary(v, Unary::Not, w)
}

// The gate of variables i and j. A variable stands in both operands, so that a Mul counts as a nonlinear product.
fn pair_at(w: u32, points: [Point; 16], i: u32, j: u32, g: Gate) -> Entry
    requires { (w ≤ 64) × ((i < 6) × (j < 6)) }
    ensures { result ≡ entry_of (atom_of w points (Variable i ∷ (Variable j ∷ (Binary g ∷ [])))) }
{
    let a = bank_atom::inner::variable(w, points, i);
    let b = bank_atom::inner::variable(w, points, j);
    bank_atom::inner::under_gate(a, b, g, true, true, w)
}

// Variable i plus Neg of variable j.
fn difference_at(w: u32, points: [Point; 16], i: u32, j: u32) -> Entry
    requires { (w ≤ 64) × ((i < 6) × (j < 6)) }
    ensures { result ≡ entry_of (atom_of w points (Variable i ∷ (Variable j ∷ (Neg ∷ (Binary Add ∷ []))))) }
{
    let a = bank_atom::inner::variable(w, points, i);
    let b = bank_atom::inner::variable(w, points, j);
    let minus = bank_atom::inner::under_unary(b, Unary::Neg, w);
    bank_atom::inner::under_gate(a, minus, Gate::Add, true, true, w)
}

// The atom of the formula at a place.
pub fn entry_at(at: Cursor, nv: u32, w: u32, points: [Point; 16]) -> Entry
    requires { (w ≤ 64) × Stands nv at }
    ensures { result ≡ entry_of (atom_of w points (form_of w at)) }
{
    match at {
        Cursor::Constant(k) => constant_at(w, k),
        Cursor::Variable(i, k) => variable_at(w, points, i, k),
        Cursor::Pair(i, j, k) => pair_at(w, points, i, j, GATES[k as usize]),
        Cursor::Difference(i, j) => difference_at(w, points, i, j),
        Cursor::Done => bank_atom::inner::constant(w, 0),
    }
}

// The place of the first difference at or after variables i and j, none of which is of a variable with itself.
fn difference_from(nv: u32, i: u32, j: u32) -> Cursor
    requires { (i < 6) × (j ≤ 6) }
    ensures { result ≡ difference_from nv i j }
{
    let at = skip(i, j);
    if at < nv {
        return Cursor::Difference(i, at);
    }
    if i + 1 < nv {
        return Cursor::Difference(i + 1, 0);
    }
    Cursor::Done
}

// j, or the number after it where j is i.
fn skip(i: u32, j: u32) -> u32
    requires { j ≤ 6 }
    ensures { result ≡ skipped i j }
{
    if i == j { j + 1 } else { j }
}

fn next_variable(nv: u32, i: u32, k: u32) -> Cursor
    requires { (i < 6) × (k < 3) }
    ensures { result ≡ next_of nv (Place.Variable i k) }
{
    if k + 1 < FORMS {
        return Cursor::Variable(i, k + 1);
    }
    if i + 1 < nv {
        return Cursor::Variable(i + 1, 0);
    }
    Cursor::Pair(0, 0, 0)
}

fn next_pair(nv: u32, i: u32, j: u32, k: u32) -> Cursor
    requires { (i < 6) × ((j < 6) × (k < 5)) }
    ensures { result ≡ next_of nv (Place.Pair i j k) }
{
    if k + 1 < GATES.len() as u32 {
        return Cursor::Pair(i, j, k + 1);
    }
    if j + 1 < nv {
        return Cursor::Pair(i, j + 1, 0);
    }
    if i + 1 < nv {
        return Cursor::Pair(i + 1, i + 1, 0);
    }
    difference_from(nv, 0, 0)
}

// The place after it.
pub fn next(at: Cursor, nv: u32) -> Cursor
    requires { Stands nv at }
    ensures { result ≡ next_of nv at }
{
    match at {
        Cursor::Constant(k) => {
            if k + 1 < CONSTANTS {
                Cursor::Constant(k + 1)
            } else {
                Cursor::Variable(0, 0)
            }
        }
        Cursor::Variable(i, k) => next_variable(nv, i, k),
        Cursor::Pair(i, j, k) => next_pair(nv, i, j, k),
        Cursor::Difference(i, j) => difference_from(nv, i, j + 1),
        Cursor::Done => Cursor::Done,
    }
}
