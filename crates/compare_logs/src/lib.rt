// Lines about closing logs. crates/compare/data/logs.txt tells what stands in them.
#![tactic(auto)]

ghost use Rattle.std.specs.Prelude.{◌≤◌, length};

use compare_lines::inner::words_same;
use compare_lines::{narrow, number_at, refusal_of};
use limits::Refusal;
use log_rules::LentRules;
use log_run::{Log, Shown};
use rule_run::Records;

// The most rules that a line has.
const RULES: usize = 10;

// How many opcodes and operands a rule is lent.
const RULE_PLACES: usize = 64;

// The most opcodes, operands and words of records that are lent.
const PLACES: usize = 640;

// The most words of records that a line has; no line is longer.
const NUMBERS: u64 = 512;

// Where the ranks stand in a line about a run.
const RANKS: usize = 43;

// 27 0 LOG NEXT, or 27 1 LOG NEXT and what a run is lent
pub fn log_same(line: &[u64]) -> bool {
    if line.len() < 28 {
        return false;
    }
    let call = line[1];
    match call {
        0 => opened_same(line),
        1 => run_same(line),
        _ => false,
    }
}

// ---- logs

// The log from place 2 on: OPEN RANK NUMBER CLOSED LATER, eight windows.
fn log_of(line: &[u64]) -> Log
    requires { 28 ≤ length line.now }
{
    Log {
        begun: line[2] != 0,
        shown: Shown {
            number: line[4],
            close: line[5],
            rank: narrow(line[3]),
            later: line[6],
        },
        windows: [
            line[7], line[8], line[9], line[10], line[11], line[12], line[13], line[14],
        ],
    }
}

// Whether a log is the one from place 15 on, whose OPEN may be any number: a log here only has whether it is 0.
fn log_is(log: Log, line: &[u64]) -> bool
    requires { 28 ≤ length line.now }
{
    let begun = line[15] != 0;
    if log.begun != begun {
        return false;
    }
    let shown = log.shown;
    let told = [shown.rank as u64, shown.number, shown.close, shown.later];
    words_same(&told, line, 16) && words_same(&log.windows, line, 20)
}

// 27 0 LOG NEXT
fn opened_same(line: &[u64]) -> bool
    requires { 28 ≤ length line.now }
{
    if line.len() != 28 {
        return false;
    }
    log_is(log_run::open_log(log_of(line)), line)
}

// ---- runs

// 27 1 LOG NEXT REFUSAL NV W RULES N RANKSLEN MSLEN WINDOWSLEN COUNTSLEN OPSLEN OPERANDSLEN RECORDSLEN WRITTEN STRIDE SAID, ranks, ms,
// windows, counts, opcodes, operands, words of records
fn run_same(line: &[u64]) -> bool {
    if line.len() < RANKS {
        return false;
    }
    if line[40] > RULES as u64 {
        return false;
    }
    if line[41] > RULE_PLACES as u64 {
        return false;
    }
    if line[42] > NUMBERS {
        return false;
    }
    if !lengths_fit(line) {
        return false;
    }
    ran_same(
        line,
        line[40] as usize,
        line[41] as usize,
        line[42] as usize,
    )
}

// Whether no array is to be lent that is longer than the line has numbers for.
fn lengths_fit(line: &[u64]) -> bool
    requires { 43 ≤ length line.now }
{
    let written = compare_lines::least(line[40], RULES);
    if !values_fit(line, written as u64) {
        return false;
    }
    let places = (RULE_PLACES * written) as u64;
    if line[37] > places {
        return false;
    }
    if line[38] > places {
        return false;
    }
    if line[42] == 0 {
        return line[39] == 0;
    }
    line[39] <= PLACES as u64
}

// The same of ranks, ms, windows and counts.
fn values_fit(line: &[u64], written: u64) -> bool
    requires { 43 ≤ length line.now }
{
    if line[33] > written {
        return false;
    }
    if line[34] > written {
        return false;
    }
    if line[35] > written {
        return false;
    }
    line[36] <= written
}

// Whether the line has as many numbers as it says, and the run answers what it says.
fn ran_same(line: &[u64], written: usize, stride: usize, said: usize) -> bool
    requires { (43 ≤ length line.now) × (written ≤ 10) × (stride ≤ 64) × (said ≤ 512) }
{
    let tokens = times(stride, written);
    let formulas = RANKS + 4 * written;
    if line.len() != formulas + tokens + tokens + said {
        return false;
    }
    // beside a refusal the line has the log that it hands in
    let r = ran(line, written, stride, tokens, said);
    refusal_of(r) == line[28] && log_is(r.unwrap_or(log_of(line)), line)
}

// How many numbers so many rules have.
fn times(stride: usize, rules: usize) -> usize
    requires { (stride ≤ 64) × (rules ≤ 10) }
    ensures { result ≤ 640 }
{
    stride * rules
}

// The run over the arrays that the line has, as long as it says.
fn ran(
    line: &[u64],
    written: usize,
    stride: usize,
    tokens: usize,
    said: usize,
) -> Result<Log, Refusal>
    requires { (43 ≤ length line.now) × (written ≤ 10) × (stride ≤ 64) × (tokens ≤ 640) × (said ≤ 512) }
{
    let formulas = RANKS + 4 * written;
    let ranks = values_at(line, RANKS);
    let ms = values_at(line, RANKS + written);
    let windows = values_at(line, RANKS + 2 * written);
    let counts = values_at(line, RANKS + 3 * written);
    let ops = ops_at(line, formulas, stride);
    let operands = operands_at(line, formulas + tokens, stride);
    let words = records_at(line, formulas + tokens + tokens, said);
    let rules = LentRules {
        count: line[31] as usize,
        ranks: compare_lines::first(&ranks, line[33]),
        ms: compare_lines::first(&ms, line[34]),
        windows: compare_lines::first(&windows, line[35]),
        token_counts: compare_lines::first(&counts, line[36]),
        ops: compare_lines::first(&ops, line[37]),
        operands: compare_lines::first(&operands, line[38]),
    };
    let records = Records {
        nv: narrow(line[29]),
        w: narrow(line[30]),
        n: line[32] as usize,
        words: compare_lines::first(&words, line[39]),
    };
    log_run::run_log(log_of(line), &rules, &records)
}

// ---- arrays

// Ranks, ms, windows or counts, from `base` on.
fn values_at(line: &[u64], base: usize) -> [u32; 10]
    requires { base ≤ 100 }
{
    let mut values = [0u32; RULES];
    for i in 0..RULES {
        values[i] = narrow(number_at(line, base + i));
    }
    values
}

// What a place holds of numbers from `base` on, as many for each rule as `stride` says; `rest` past them.
fn token_at(line: &[u64], base: usize, stride: usize, place: usize, rest: u64) -> u64
    requires { (base ≤ 1000) × (stride ≤ 64) × (place ≤ 639) }
{
    let at = place % RULE_PLACES;
    if stride <= at {
        return rest;
    }
    number_at(line, base + times(stride, place / RULE_PLACES) + at)
}

fn ops_at(line: &[u64], base: usize, stride: usize) -> [u8; 640]
    requires { (base ≤ 1000) × (stride ≤ 64) }
{
    std::array::from_fn(|i| compare_lines::opcode(token_at(line, base, stride, i, 255)))
}

fn operands_at(line: &[u64], base: usize, stride: usize) -> [u64; 640]
    requires { (base ≤ 1000) × (stride ≤ 64) }
{
    std::array::from_fn(|i| token_at(line, base, stride, i, 0))
}

// A word of records, of which the line has the first `said`; they repeat.
fn record_word(line: &[u64], base: usize, said: usize, place: usize) -> u64
    requires { (base ≤ 2000) × (said ≤ 512) }
{
    if said == 0 {
        return 0;
    }
    number_at(line, base + place % said)
}

fn records_at(line: &[u64], base: usize, said: usize) -> [u64; 640]
    requires { (base ≤ 2000) × (said ≤ 512) }
{
    std::array::from_fn(|i| record_word(line, base, said, i))
}
