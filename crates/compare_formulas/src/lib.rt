// Lines about formulas. crates/compare/data/formulas.txt tells what stands in them.
#![tactic(auto)]

ghost use Rattle.std.specs.Prelude.{◌≡◌, ◌+◌, ◌*◌, ◌≤◌, ◌<◌, length};

use compare_lines::narrow;

// The most places that a line's arrays have.
const PLACES: usize = 80;

// A formula's tokens, and the place of the line after them.
#[derive(Clone, Copy)]
struct Text {
    ops: [u8; 80],
    operands: [u64; 80],
    end: usize,
}

// How many numbers a token takes: constants and variables have an operand.
fn numbers_of(op: u64) -> usize
    ensures { result ≤ 2 }
{
    if op < 2 { 2 } else { 1 }
}

fn operand_at(line: &[u64], op: u64, at: usize) -> u64 {
    if op < 2 {
        compare_lines::number_at(line, at)
    } else {
        0
    }
}

// The tokens from place 4 on: an opcode, and after 0 and 1 an operand.
fn read_tokens(line: &[u64], count: usize) -> Text
    requires { count ≤ 64 }
    ensures { result.end ≤ 4 + 2 * count }
{
    let mut ops = [0u8; PLACES];
    let mut operands = [0u64; PLACES];
    let mut end: usize = 4;
    for i in 0..count {
        let op = compare_lines::number_at(line, end);
        ops[i] = compare_lines::opcode(op);
        operands[i] = operand_at(line, op, end + 1);
        end += numbers_of(op);
    }
    Text { ops, operands, end }
}

// 9 NV W COUNT, tokens, NV words, VALUE SIZE PRODUCTS DEPTH
pub fn formula_same(line: &[u64]) -> bool {
    if line.len() < 8 {
        return false;
    }
    if 6 < line[1] {
        return false;
    }
    if 64 < line[3] {
        return false;
    }
    let nv = line[1] as usize;
    let count = line[3] as usize;
    let text = read_tokens(line, count);
    let end = text.end;
    if line.len() != end + nv + 4 {
        return false;
    }
    let ops = text.ops;
    let operands = text.operands;
    if !value_is(line, count, &ops, &operands, end, nv) {
        return false;
    }
    cost_is(line, count, &ops, &operands, end + nv + 1)
}

// Whether the value at the line's words, which begin at `from`, is the number after them.
fn value_is(
    line: &[u64],
    count: usize,
    ops: &[u8],
    operands: &[u64],
    from: usize,
    nv: usize,
) -> bool
    requires { (nv ≤ 6) × ((2 < length line.now) × (from + nv < length line.now)) }
{
    let w = narrow(line[2]);
    let to = from + nv;
    expr_eval::eval(nv as u32, w, count, ops, operands, &line[from..to]) == Ok(line[to])
}

// Whether the cost is the three numbers from `from` on.
fn cost_is(line: &[u64], count: usize, ops: &[u8], operands: &[u64], from: usize) -> bool
    requires { (1 < length line.now) × (from + 3 ≤ length line.now) }
{
    let nv = narrow(line[1]);
    let Ok(cost) = expr_cost::compute_cost(nv, count, ops, operands) else {
        return false;
    };
    let told = [cost.size as u64, cost.products as u64, cost.depth as u64];
    compare_lines::inner::words_same(&told, line, from)
}

// The n numbers from `from` on, as opcodes; zeros past them.
fn opcodes_at(line: &[u64], from: usize, n: usize) -> [u8; 80]
    requires { (n ≤ 80) × (from + n ≤ length line.now) }
    ensures { length result ≡ 80 }
{
    let part = &line[from..from + n];
    std::array::from_fn(|i| compare_lines::opcode(compare_lines::number_at(part, i)))
}

// 10 NV W COUNT OPSLEN OPERANDSLEN WORDSLEN, the arrays, EVALREFUSAL COSTREFUSAL
pub fn refusal_same(line: &[u64]) -> bool {
    if line.len() < 9 {
        return false;
    }
    if 80 < line[4] {
        return false;
    }
    if 80 < line[5] {
        return false;
    }
    if 80 < line[6] {
        return false;
    }
    let n = line[4] as usize;
    let a = 7 + n;
    let b = a + line[5] as usize;
    let c = b + line[6] as usize;
    if line.len() != c + 2 {
        return false;
    }
    let ops = opcodes_at(line, 7, n);
    refusals_are(line, &ops[..n], a, b, c)
}

// Whether both calls refuse these opcodes, with the operands from `a` to `b` and the words from `b` to `c`, as stands from `c` on.
fn refusals_are(line: &[u64], ops: &[u8], a: usize, b: usize, c: usize) -> bool
    requires { (9 ≤ length line.now) × (a ≤ b) × (b ≤ c) × (c + 2 ≤ length line.now) }
{
    if !cost_refusal_is(line, ops, &line[a..b], line[c + 1]) {
        return false;
    }
    value_refusal_is(line, ops, &line[a..b], &line[b..c], line[c])
}

fn cost_refusal_is(line: &[u64], ops: &[u8], operands: &[u64], refusal: u64) -> bool
    requires { 9 ≤ length line.now }
{
    let r = expr_cost::compute_cost(narrow(line[1]), line[3] as usize, ops, operands);
    compare_lines::refusal_of(r) == refusal
}

fn value_refusal_is(line: &[u64], ops: &[u8], operands: &[u64], words: &[u64], refusal: u64) -> bool
    requires { 9 ≤ length line.now }
{
    let v = expr_eval::eval(
        narrow(line[1]),
        narrow(line[2]),
        line[3] as usize,
        ops,
        operands,
        words,
    );
    compare_lines::refusal_of(v) == refusal
}
