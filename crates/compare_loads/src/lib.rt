// Lines about the test load. crates/compare/data/loads.txt tells what stands in them.
#![tactic(auto)]

ghost use Rattle.std.specs.Prelude.{◌≤◌, length};

use compare_lines::{OLD_BYTE, OLD_WORD, narrow};
use expr::MAX_TOKENS;
use limits::Refusal;
use load_draw::DrawnFormula;

// The most places that a line's arrays have.
const PLACES: usize = 80;

// 24 NV W LIMIT STATE OPSLEN OPERANDSLEN REFUSAL COUNT NEXT, COUNT opcodes, COUNT operands
pub fn draw_same(line: &[u64]) -> bool {
    if line.len() < 10 {
        return false;
    }
    if line[8] > MAX_TOKENS as u64 {
        return false;
    }
    let count = line[8] as usize;
    let middle = 10 + count;
    let end = middle + count;
    if line.len() != end {
        return false;
    }
    drawn_same(line, &line[10..middle], &line[middle..end])
}

// Whether the draw that the line asks for answers what stands in it and leaves these opcodes and operands.
fn drawn_same(line: &[u64], ops_expected: &[u64], operands_expected: &[u64]) -> bool
    requires { 10 ≤ length line.now }
{
    let mut ops = [OLD_BYTE; PLACES];
    let mut operands = [OLD_WORD; PLACES];
    let r = draw_into_parts(&mut ops, &mut operands, line);
    if !told_is(r, line) {
        return false;
    }
    if !are(&ops, ops_expected, OLD_BYTE) {
        return false;
    }
    are(&operands, operands_expected, OLD_WORD)
}

// The draw over parts of the arrays, as long as the line says.
fn draw_into_parts(
    ops: &mut [u8],
    operands: &mut [u64],
    line: &[u64],
) -> Result<DrawnFormula, Refusal>
    requires { 10 ≤ length line.now }
{
    load_draw::draw_formula(
        compare_lines::first_mut(ops, line[5]),
        compare_lines::first_mut(operands, line[6]),
        line[4],
        narrow(line[1]),
        narrow(line[2]),
        line[3] as usize,
    )
}

// Whether refusal, count and state are those of the line; a refusal has no tokens, and the state stays.
fn told_is(r: Result<DrawnFormula, Refusal>, line: &[u64]) -> bool
    requires { 10 ≤ length line.now }
{
    if compare_lines::refusal_of(r) != line[7] {
        return false;
    }
    match r {
        Ok(drawn) => drawn.count as u64 == line[8] && drawn.state == line[9],
        Err(_) => line[8] == 0 && line[9] == line[4],
    }
}

// What must stand at a place: what is expected there, and past that what stood there before.
fn expected_at(expected: &[u64], at: usize, old: u64) -> u64 {
    if at < expected.len() {
        expected[at]
    } else {
        old
    }
}

// Whether the elements begin with what is expected, and the others are as they were.
fn are<T: Copy + Into<u64>>(s: &[T], expected: &[u64], old: T) -> bool {
    for i in 0..s.len() {
        if compare_lines::number_at(s, i) != expected_at(expected, i, old.into()) {
            return false;
        }
    }
    true
}
