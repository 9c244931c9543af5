// Lines about rules over records. crates/compare/data/rules.txt tells what stands in them.
#![tactic(auto)]

ghost use Rattle.std.specs.Prelude.{◌≤◌, length};

use compare_lines::{OLD_BYTE, narrow};
use limits::Refusal;
use rule_run::{LentRule, Records, RuleState};

// The most places for opcodes and for answers.
const PLACES: usize = 100;

// The most operands and words of records; no line is longer.
const NUMBERS: u64 = 512;

// 26 NV W M WINDOW STATE N COUNT OPSLEN OPERANDSLEN RECORDSLEN ANSWERSLEN REFUSAL NEXT, opcodes, operands, words of records, answers
pub fn rule_same(line: &[u64]) -> bool {
    if line.len() < 14 {
        return false;
    }
    if line[8] > PLACES as u64 {
        return false;
    }
    if line[9] > NUMBERS {
        return false;
    }
    if line[10] > NUMBERS {
        return false;
    }
    if line[11] > PLACES as u64 {
        return false;
    }
    let a = 14 + line[8] as usize;
    let b = a + line[9] as usize;
    let c = b + line[10] as usize;
    if line.len() != c + words_of(answered(line)) {
        return false;
    }
    run_same(line, a, b, c)
}

// How many records are answered: none where the line is refused.
fn answered(line: &[u64]) -> usize
    requires { 14 ≤ length line.now }
    ensures { result ≤ 100 }
{
    if line[12] == 0 {
        compare_lines::least(line[6], PLACES)
    } else {
        0
    }
}

// How many words so many answers take.
fn words_of(count: usize) -> usize
    requires { count ≤ 100 }
    ensures { result ≤ 2 }
{
    (count + 63) / 64
}

// Whether a run with the opcodes up to `a`, the operands up to `b` and the records up to `c` answers what the line says, and from `c` on.
fn run_same(line: &[u64], a: usize, b: usize, c: usize) -> bool
    requires { (14 ≤ a) × (a ≤ b) × (b ≤ c) × (c ≤ length line.now) }
{
    let mut ops = [0u8; PLACES];
    put_opcodes(&mut ops, &line[14..a]);
    let mut answers = [OLD_BYTE; PLACES];
    let r = run_over_parts(&mut answers, line, &ops, &line[a..b], &line[b..c]);
    if !told_is(r, line) {
        return false;
    }
    answers_are(&answers, &line[c..], answered(line))
}

// Opcodes into the first places, 0 past them. Not as lines about logs and formulas: the places are lent here, and 0 is past them.
fn put_opcodes(s: &mut [u8], opcodes: &[u64]) {
    for i in 0..s.len() {
        s[i] = compare_lines::opcode(compare_lines::number_at(opcodes, i));
    }
}

// The run over parts of opcodes and answers, as long as the line says.
fn run_over_parts(
    answers: &mut [u8],
    line: &[u64],
    ops: &[u8],
    operands: &[u64],
    words: &[u64],
) -> Result<RuleState, Refusal>
    requires { 14 ≤ length line.now }
{
    let rule = LentRule {
        token_count: line[7] as usize,
        ops: compare_lines::first(ops, line[8]),
        operands,
        m: narrow(line[3]),
        window: narrow(line[4]),
    };
    let records = Records {
        nv: narrow(line[1]),
        w: narrow(line[2]),
        n: line[6] as usize,
        words,
    };
    let answers = compare_lines::first_mut(answers, line[11]);
    rule_run::run_rule(answers, &rule, RuleState { past: line[5] }, &records)
}

// Whether refusal and state are those of the line; where it is refused the state stays.
fn told_is(r: Result<RuleState, Refusal>, line: &[u64]) -> bool
    requires { 14 ≤ length line.now }
{
    if compare_lines::refusal_of(r) != line[12] {
        return false;
    }
    match r {
        Ok(state) => state.past == line[13],
        Err(_) => line[5] == line[13],
    }
}

// What must stand at a place: the answer, and past the answers what stood there before.
fn expected_at(words: &[u64], count: usize, at: usize) -> u64 {
    if count <= at {
        return OLD_BYTE as u64;
    }
    (compare_lines::number_at(words, at / 64) >> (at % 64)) & 1
}

// Whether the places begin with so many answers, packed 64 to a word, and the others are as they were.
fn answers_are(answers: &[u8], words: &[u64], count: usize) -> bool {
    for i in 0..answers.len() {
        if compare_lines::number_at(answers, i) != expected_at(words, count, i) {
            return false;
        }
    }
    true
}
