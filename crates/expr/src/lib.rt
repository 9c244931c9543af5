// Formulas in postfix: their tokens and their test. From expr.rs.
#![tactic(auto)]

pub mod inner;
mod reader;

ghost use Rattle.std.specs.Prelude.{◌≡◌};
ghost use Rattle.expr.specs.Formula.{token_of, arity, token_at, tokens, known, is_formula};

use row_gates::Gate;

// The most tokens that a formula has.
pub const MAX_TOKENS: usize = 64;

// A token of a formula; `Bad` is whatever is none: a case of its own, since the test and the algebras are over lists of what stands at each place, whatever that is.
#[derive(Clone, Copy)]
pub enum Token {
    Constant(u64),
    Variable(u64),
    Binary(Gate),
    Not,
    Neg,
    Bad,
}

// The token at a place, `Bad` past the end of either array: what a reader that stands there reads next.
pub fn token_at(ops: &[u8], operands: &[u64], at: usize) -> Token
    ensures { result ≡ token_at ops.now operands.now at }
{
    reader::next(reader::new(ops, operands, at))
}

// The token of an opcode and its operand; `Bad` where the opcode is unknown, or an operand that isn't used isn't 0.
#[tactic(auto, unfolding(crate::specs::Formula::token_of))]
fn token_of(opcode: u8, operand: u64) -> Token
    ensures { result ≡ token_of opcode operand }
{
    if opcode == 0 {
        return Token::Constant(operand);
    }
    if opcode == 1 {
        return Token::Variable(operand);
    }
    if operand != 0 {
        return Token::Bad;
    }
    match opcode {
        2 => Token::Binary(Gate::Add),
        3 => Token::Binary(Gate::Mul),
        4 => Token::Binary(Gate::And),
        5 => Token::Binary(Gate::Or),
        6 => Token::Binary(Gate::Xor),
        7 => Token::Not,
        8 => Token::Neg,
        _ => Token::Bad,
    }
}

// Whether a token may stand in a formula over nv variables.
#[tactic(auto, unfolding(crate::specs::Formula::known))]
fn is_known(t: Token, nv: u32) -> bool
    ensures { result ≡ known nv t }
{
    match t {
        Token::Variable(i) => i < nv as u64,
        Token::Bad => false,
        _ => true,
    }
}

// How many values a token takes.
#[tactic(auto, unfolding(crate::specs::Formula::arity))]
pub fn takes(t: Token) -> usize
    ensures { result ≡ arity t }
{
    match t {
        Token::Binary(_) => 2,
        Token::Not | Token::Neg => 1,
        Token::Constant(_) | Token::Variable(_) | Token::Bad => 0,
    }
}

// Whether the first `token_count` tokens are a formula over nv variables: 1 to 64 of them, all known, no operand missing, one value left.
pub fn is_formula(nv: u32, token_count: usize, ops: &[u8], operands: &[u64]) -> bool
    ensures { result ≡ is_formula nv (tokens token_count ops.now operands.now) }
{
    if token_count < 1 {
        return false;
    }
    if MAX_TOKENS < token_count {
        return false;
    }
    let mut depth: usize = 0;
    for i in 0..token_count {
        let t = token_at(ops, operands, i);
        if !is_known(t, nv) {
            return false;
        }
        let taken = takes(t);
        if depth < taken {
            return false;
        }
        depth = depth - taken + 1;
    }
    depth == 1
}
