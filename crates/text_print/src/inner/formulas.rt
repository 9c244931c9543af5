// Formulas as text, a line each. Each function answers the place after what it wrote.
ghost use Rattle.std.specs.Prelude.{◌≡◌, [], ◌∷◌, ◌+◌, ◌*◌, ◌≤◌, ◌<◌, length};
ghost use Rattle.expr.specs.declared.Token.TheVariants.{Binary};
ghost use Rattle.expr.specs.Formula.{tokens};
ghost use Rattle.text_print.specs.Text.{decimal, token_text, formula_line};
ghost use Rattle.text_print.specs.Printing.{Wrote, token_max, next_max, formula_max, Stored, lines_text, next_text, formula_at, sign_of};

use crate::inner::decimal;
use expr::Token;
use row_gates::Gate;

// The token places of an atom in the lent arrays.
const TOKENS: usize = 6;

// The formulas of the first n atoms.
pub fn print_formulas(
    out: &mut [u8],
    at: usize,
    lengths: &[u32],
    ops: &[u8],
    operands: &[u64],
    n: usize,
) -> usize
    requires { (at + formula_max * n ≤ length out.old) × Stored lengths.now ops.now operands.now n }
    ensures wrote { Wrote out.old at out.new result (lines_text (formula_at lengths.now ops.now operands.now) n) }
    ensures upper_bound { result ≤ at + formula_max * n }
{
    let mut p = at;
    for k in 0..n {
        let start = TOKENS * k;
        let end = TOKENS * k + TOKENS;
        let count = lengths[k] as usize;
        p = print_formula(out, p, &ops[start..end], &operands[start..end], count);
    }
    p
}

// The first `count` tokens.
pub fn print_formula(out: &mut [u8], at: usize, ops: &[u8], operands: &[u64], count: usize) -> usize
    requires { at + next_max * count + 1 ≤ length out.old }
    ensures wrote { Wrote out.old at out.new result (formula_line (tokens count ops.now operands.now)) }
    ensures upper_bound { result ≤ at + next_max * count + 1 }
{
    let mut p = at;
    for i in 0..count {
        p = print_next(out, p, i, expr::token_at(ops, operands, i));
    }
    out[p] = b'\n';
    p + 1
}

// A token with i others before it: a blank first, unless it begins the line.
fn print_next(out: &mut [u8], at: usize, i: usize, t: Token) -> usize
    requires { at + next_max ≤ length out.old }
    ensures wrote { Wrote out.old at out.new result (next_text i t) }
    ensures upper_bound { result ≤ at + next_max }
{
    if i == 0 {
        return print_token(out, at, t);
    }
    out[at] = b' ';
    print_token(out, at + 1, t)
}

// A token as its sign, or what has none. The signs are told apart by no jump: which one comes next is not foreseen.
fn print_token(out: &mut [u8], at: usize, t: Token) -> usize
    requires { at + token_max ≤ length out.old }
    ensures wrote { Wrote out.old at out.new result (token_text t) }
    ensures upper_bound { result ≤ at + token_max }
{
    let sign = sign_of(t);
    if sign != 0 {
        return print_sign(out, at, sign);
    }
    print_signless(out, at, t)
}

// A leaf as a letter and its number; nothing for what is no token.
fn print_signless(out: &mut [u8], at: usize, t: Token) -> usize
    requires { (sign_of t ≡ 0) × (at + token_max ≤ length out.old) }
    ensures wrote { Wrote out.old at out.new result (token_text t) }
    ensures upper_bound { result ≤ at + token_max }
{
    match t {
        Token::Constant(k) => print_leaf(out, at, b'c', k),
        Token::Variable(i) => print_leaf(out, at, b'v', i),
        Token::Binary(_) => at,
        Token::Not => at,
        Token::Neg => at,
        Token::Bad => at,
    }
}

// A letter, and a number right after it.
fn print_leaf(out: &mut [u8], at: usize, letter: u8, x: u64) -> usize
    requires { at + token_max ≤ length out.old }
    ensures wrote { Wrote out.old at out.new result (letter ∷ decimal x) }
    ensures upper_bound { result ≤ at + token_max }
{
    out[at] = letter;
    decimal::write_decimal(out, at + 1, x)
}

// One byte.
fn print_sign(out: &mut [u8], at: usize, sign: u8) -> usize
    requires { at < length out.old }
    ensures wrote { Wrote out.old at out.new result (sign ∷ []) }
    ensures value { result ≡ at + 1 }
{
    out[at] = sign;
    at + 1
}

// The sign of a token, 0 where it has none. Not an Option: no sign is 0, the definition has the number too, and `print_token` makes one comparison.
fn sign_of(t: Token) -> u8
    ensures { result ≡ sign_of t }
{
    match t {
        Token::Constant(_) => 0,
        Token::Variable(_) => 0,
        Token::Binary(g) => gate_sign(g),
        Token::Not => b'!',
        Token::Neg => b'-',
        Token::Bad => 0,
    }
}

// The sign of a gate.
fn gate_sign(g: Gate) -> u8
    ensures { result ≡ sign_of (Binary g) }
{
    match g {
        Gate::And => b'&',
        Gate::Or => b'|',
        Gate::Xor => b'^',
        Gate::Add => b'+',
        Gate::Mul => b'*',
    }
}
