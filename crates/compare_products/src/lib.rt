// Lines about product searches. crates/compare/data/searches.txt tells what stands in them.
#![tactic(auto)]

ghost use Rattle.std.specs.Prelude.{◌+◌, ◌≤◌, length};

use compare_indexes::inner::Asked;
use compare_lines::inner::words_same;
use compare_lines::{OLD_HALF, OLD_WORD, narrow};
use limits::Refusal;
use search_product_forms::inner::LentForms;
use search_product_trial::inner::{Found, Search};

// 16 NV W, the points' words, the target, W2 W3 LIMIT, the row, ANSWER A B
pub fn product_same(line: &[u64]) -> bool {
    if line.len() < 3 {
        return false;
    }
    if 6 < line[1] {
        return false;
    }
    let nv = line[1] as usize;
    let at = 3 + 16 * nv;
    if line.len() != at + 38 {
        return false;
    }
    let mut lengths = [0u32; 479];
    let mut ops = [0u8; 2874];
    let mut operands = [0u64; 2874];
    let mut rows = [0u64; 7664];
    let count = compare_banks::inner::bank_of(
        &mut lengths,
        &mut ops,
        &mut operands,
        &mut rows,
        line,
        nv,
    );
    search_is(line, at + 16, count, &lengths, &ops, &operands, &rows)
}

// Whether the search over these atoms and their index, of at most 500 pairs and of its own width, answers as stands from `at` on.
fn search_is(
    line: &[u64],
    at: usize,
    count: usize,
    lengths: &[u32],
    ops: &[u8],
    operands: &[u64],
    rows: &[u64],
) -> bool
    requires { (at ≤ 500) × (at + 22 ≤ length line.now) }
{
    let mut pairs = [OLD_HALF; 1500];
    let mut pair_rows = [OLD_WORD; 8000];
    let mut order = [OLD_HALF; 500];
    let asked = Asked {
        w: narrow(line[at]),
        count,
        limit: line[at + 2] as usize,
    };
    let Some(n) = compare_indexes::inner::built_index(
        &mut pairs,
        &mut pair_rows,
        &mut order,
        asked,
        rows,
    ) else {
        return false;
    };
    let row = compare_lines::inner::row_at(line, at + 3);
    let forms = LentForms {
        count,
        lengths,
        ops,
        operands,
        n,
        pairs: &pairs,
    };
    let r = search_product::product_search(&Search {
        forms,
        atoms: rows,
        listed: &pair_rows,
        order: &order,
        target: &row,
        w: narrow(line[at + 1]),
    });
    product_is(r, line, at + 19)
}

// Whether the answer is the one from `at` on.
fn product_is(r: Result<Option<Found>, Refusal>, line: &[u64], at: usize) -> bool
    requires { at + 3 ≤ length line.now }
{
    match r {
        Ok(Some(Found::Atoms(a, b))) => words_same(&[1, a.0 as u64, b.0 as u64], line, at),
        Ok(Some(Found::AtomPair(a, s))) => words_same(&[2, a.0 as u64, s.0 as u64], line, at),
        Ok(None) => words_same(&[0, 0, 0], line, at),
        Err(_) => false,
    }
}

// 17 W COUNT LENGTHSLEN OPSLEN OPERANDSLEN ATOMSLEN N PAIRSLEN LISTEDLEN ORDERLEN WORD SWAP BADATOM LENGTH OP OPERAND BADPAIR GATE B C REFUSAL
pub fn product_refusal_same(line: &[u64]) -> bool {
    if line.len() != 22 {
        return false;
    }
    let mut lengths = [1u32; 8000];
    let mut ops = [255u8; 8000];
    let mut operands = [0u64; 8000];
    let mut pairs = [0u32; 8000];
    zero_formulas(&mut ops);
    put_atom(&mut lengths, &mut ops, &mut operands, line);
    put_pair(&mut pairs, line);
    let order = compare_lines::zero_order(line[12]);
    product_refusal(&lengths, &ops, &operands, &pairs, &order, line) == line[21]
}

// Makes each atom's first token the constant 0.
fn zero_formulas(ops: &mut [u8]) {
    for i in (0..ops.len()).step_by(6) {
        ops[i] = 0;
    }
}

// The recorded length and the first token of one atom.
fn put_atom(lengths: &mut [u32], ops: &mut [u8], operands: &mut [u64], line: &[u64])
    requires { (22 ≤ length line.now) × (479 ≤ length lengths.old) × (2874 ≤ length ops.old) × (2874 ≤ length operands.old) }
{
    if line[13] < 479 {
        let k = line[13] as usize;
        lengths[k] = narrow(line[14]);
        ops[6 * k] = compare_lines::opcode(line[15]);
        operands[6 * k] = line[16];
    }
}

// The words of one pair.
fn put_pair(pairs: &mut [u32], line: &[u64])
    requires { 22 ≤ length line.now }
{
    if line[17] < 500 {
        let at = 3 * line[17] as usize;
        put_half(pairs, at, narrow(line[18]));
        put_half(pairs, at + 1, narrow(line[19]));
        put_half(pairs, at + 2, narrow(line[20]));
    }
}

fn put_half(s: &mut [u32], at: usize, value: u32) {
    if at < s.len() {
        s[at] = value;
    }
}

// The refusal of a search over parts of the arrays, as long as the line says; 0 for none. All rows are zeros.
fn product_refusal(
    lengths: &[u32],
    ops: &[u8],
    operands: &[u64],
    pairs: &[u32],
    order: &[u32],
    line: &[u64],
) -> u64
    requires { 22 ≤ length line.now }
{
    let rows = [0u64; 8000];
    let mut target = [0u64; 16];
    target[15] = line[11];
    let forms = LentForms {
        count: line[2] as usize,
        lengths: compare_lines::first(lengths, line[3]),
        ops: compare_lines::first(ops, line[4]),
        operands: compare_lines::first(operands, line[5]),
        n: line[7] as usize,
        pairs: compare_lines::first(pairs, line[8]),
    };
    let r = search_product::product_search(&Search {
        forms,
        atoms: compare_lines::first(&rows, line[6]),
        listed: compare_lines::first(&rows, line[9]),
        order: compare_lines::first(order, line[10]),
        target: &target,
        w: narrow(line[1]),
    });
    compare_lines::refusal_of(r)
}
