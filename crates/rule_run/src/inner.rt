// The steps of a run, and its refusals.
ghost use Rattle.std.specs.Prelude.{◌≡◌, ℕ, ◌+◌, ◌-◌, ◌*◌, ◌%◌, ◌^◌, ◌<◌, ◌≤◌, leb, List, [], ◌∷◌, length, if◌then◌else◌, nat_le, nat_lt, slice_index};
ghost use Rattle.limits.specs.Refusal.{refuse, refusal_of, says, outcome};
ghost use Rattle.arith.specs.Word.{bit_of};
ghost use Rattle.rule_run.specs.Window.{nonzero, sum_below, bad_window, too_few, ran_or};
ghost use Rattle.rule_run.specs.Steps.{Fed, of_record, record_replied, record_answer};
ghost use Rattle.rule_run.specs.Lent.{refusal_at, record_refusal, record_word, ran_alone, marks, IsReady};

use crate::{LentRule, MAX_WINDOW, Records, RuleState};
use expr_eval::inner::Tokens;
use limits::Refusal;
use row_gates::ROW_WORDS;

// The answer to one record, 1 or 0 as in a lent array of answers, and the state that continues the run.
#[derive(Clone, Copy)]
pub struct RecordAnswer {
    pub answer: u8,
    pub state: RuleState,
}

impl RecordAnswer {
    // What a caller has after a refused record: the answer 0, and the state that it handed in.
    pub fn refused(state: RuleState) -> RecordAnswer
        ensures answer_value { result.answer ≡ 0 }
        ensures state_value { result.state ≡ state }
    {
        RecordAnswer { answer: 0, state }
    }
}

// Whether W is not 1 to 64, or M not 1 to W: refusal 10.
pub fn bad_window(m: u32, window: u32) -> bool
    ensures { result ≡ bad_window m window }
{
    limits::inner::outside(window as u64, 1, MAX_WINDOW as u64)
        || limits::inner::outside(m as u64, 1, window as u64)
}

// Whether there are fewer than n records, of nv words each, or fewer than n places for answers.
fn too_few(answers: &[u8], records: &Records) -> bool
    requires { 1 ≤ records.now.nv }
    ensures { result ≡ too_few records.now.nv records.now.n records.now.words.now answers.now }
{
    records.words.len() / (records.nv as usize) < records.n || answers.len() < records.n
}

// Whether a call is refused.
pub fn check(answers: &[u8], rule: &LentRule, records: &Records) -> Result<(), Refusal>
    ensures { refusal_of result ≡ refusal_at rule.now records.now answers.now }
{
    if limits::inner::bad_count(records.nv) {
        return Err(Refusal::VariableCount);
    }
    if limits::inner::bad_width(records.w) {
        return Err(Refusal::Width);
    }
    if expr::inner::too_short(rule.token_count, rule.ops, rule.operands) {
        return Err(Refusal::ShortArray);
    }
    if too_few(answers, records) {
        return Err(Refusal::ShortArray);
    }
    if !expr::is_formula(records.nv, rule.token_count, rule.ops, rule.operands) {
        return Err(Refusal::Formula);
    }
    if bad_window(rule.m, rule.window) {
        return Err(Refusal::Window);
    }
    Ok(())
}

// A value, or refusal 10 in its place; one that came before stays. A match: with `?` the proof of its return did not close.
fn after_window(x: Result<u64, Refusal>, m: u32, window: u32) -> Result<u64, Refusal>
    ensures { (n v : ℕ) → says x ≡ outcome n v → says result ≡ outcome (refuse (nat_lt 0 n) n (refuse (bad_window m window) 10 0)) v }
{
    match x {
        Err(_) => x,
        Ok(_) => {
            if bad_window(m, window) {
                Err(Refusal::Window)
            } else {
                x
            }
        }
    }
}

// The formula's value at one record. The tokens are read once.
fn record_value(rule: &LentRule, nv: u32, w: u32, words: &[u64]) -> Result<u64, Refusal>
    ensures { says result ≡ outcome (record_refusal rule.now nv w words.now) (record_word rule.now nv w words.now) }
{
    if limits::inner::bad_count(nv) {
        return Err(Refusal::VariableCount);
    }
    if limits::inner::bad_width(w) {
        return Err(Refusal::Width);
    }
    if expr::inner::too_short(rule.token_count, rule.ops, rule.operands) {
        return Err(Refusal::ShortArray);
    }
    if words.len() < nv as usize {
        return Err(Refusal::ShortArray);
    }
    let x = expr_eval::inner::eval_checked(
        nv,
        w,
        rule.token_count,
        rule.ops,
        rule.operands,
        &words[0..nv as usize],
    );
    after_window(x, rule.m, rule.window)
}

// 1 where a value isn't 0.
fn mark_of(value: u64) -> u64
    ensures { result ≡ nonzero value }
{
    u64::from(value != 0)
}

// How many of the last W marks are 1: this one, and the W - 1 before it, which are the lowest bits of `past`.
fn count_of(past: u64, mark: u64, window: u32) -> u64
    requires { (1 ≤ window) × ((window ≤ 64) × (mark ≤ 1)) }
    ensures { result ≡ sum_below (window - 1) (bit_of past) + mark }
{
    let before = u64::count_ones(arith::reduce(past, window - 1));
    before as u64 + mark
}

// Whether a count reaches M.
fn reaches(count: u64, m: u32) -> bool
    ensures { result ≡ nat_le m count }
{
    m as u64 <= count
}

// The answer as a byte.
fn answer_of(count: u64, m: u32) -> u8
    ensures { result ≡ (if leb m count then 1 else 0) }
{
    u8::from(reaches(count, m))
}

// The state with one mark more; the oldest of 64 is gone.
fn with_mark(past: u64, mark: u64) -> u64
    ensures { result ≡ (past + past + mark) % 2 ^ 64 }
{
    std::num::wrapping_add_u64(std::num::wrapping_add_u64(past, past), mark)
}

// Answers the record at a place by the formula's value there; the state after it.
fn feed(answers: &mut [u8], at: usize, value: u64, m: u32, window: u32, past: u64) -> u64
    requires { (at < length answers.old) × ((1 ≤ window) × (window ≤ 64)) }
    ensures { (mark : ℕ → ℕ) (s : ℕ) (old : List ℕ) → mark at ≡ nonzero value → Fed mark s m window old at answers.old past → Fed mark s m window old (at + 1) answers.new result }
{
    let mark = mark_of(value);
    answers[at] = answer_of(count_of(past, mark, window), m);
    with_mark(past, mark)
}

// The same of one record by itself.
fn feed_record(value: u64, m: u32, window: u32, past: u64) -> RecordAnswer
    requires { (1 ≤ window) × (window ≤ 64) }
    ensures { (mark : ℕ → ℕ) → ((i : ℕ) → mark i ≤ 1) → mark 0 ≡ nonzero value → of_record result ≡ record_answer (ran_or 0 mark m window (record { past = past }) 1 (0 ∷ [])) }
{
    let mut answers = [0u8; 1];
    let after = feed(&mut answers, 0, value, m, window, past);
    RecordAnswer {
        answer: answers[0],
        state: RuleState { past: after },
    }
}

// The same of sixteen records.
fn feed_row(answers: &mut [u8], at: usize, row: [u64; 16], m: u32, window: u32, past: u64) -> u64
    requires { (at + 16 ≤ length answers.old) × ((1 ≤ window) × (window ≤ 64)) }
    ensures { (mark : ℕ → ℕ) (s : ℕ) (old : List ℕ) → ((j : ℕ) → j < 16 → mark (at + j) ≡ nonzero (slice_index row j)) → Fed mark s m window old at answers.old past → Fed mark s m window old (at + 16) answers.new result }
{
    let mut bits = past;
    for j in 0..ROW_WORDS {
        bits = feed(answers, at + j, row[j], m, window, bits);
    }
    bits
}

// The records from `at` on, one by one.
fn run_rest(answers: &mut [u8], rule: &LentRule, past: u64, at: usize, records: &Records) -> u64
    requires { IsReady rule.now records.now records.now.n × ((at ≤ records.now.n) × (records.now.n ≤ length answers.old)) }
    ensures { (s : ℕ) (old : List ℕ) → Fed (marks rule.now records.now) s rule.now.m rule.now.window old at answers.old past → Fed (marks rule.now records.now) s rule.now.m rule.now.window old records.now.n answers.new result }
{
    let nv = records.nv as usize;
    let words = records.words;
    let mut bits = past;
    for k in at..records.n {
        let from = nv * k;
        let value = expr_eval::inner::eval_tokens(
            records.w,
            rule.token_count,
            rule.ops,
            rule.operands,
            &words[from..from + nv],
        );
        bits = feed(answers, k, value, rule.m, rule.window, bits);
    }
    bits
}

// The first records, `rows` times sixteen of them: the formula goes over sixteen at once. A call with none is spared the clearing of a stack.
fn run_rows(answers: &mut [u8], rule: &LentRule, past: u64, rows: usize, records: &Records) -> u64
    requires { IsReady rule.now records.now (16 * rows) × (16 * rows ≤ length answers.old) }
    ensures { (s : ℕ) (old : List ℕ) → Fed (marks rule.now records.now) s rule.now.m rule.now.window old 0 answers.old past → Fed (marks rule.now records.now) s rule.now.m rule.now.window old (16 * rows) answers.new result }
{
    if rows == 0 {
        return past;
    }
    let mut stack = [0u64; expr_rows::STACK_WORDS];
    let nv = records.nv as usize;
    let words = records.words;
    let formula = Tokens {
        count: rule.token_count,
        ops: rule.ops,
        operands: rule.operands,
    };
    let step = ROW_WORDS * nv;
    let mut bits = past;
    for k in 0..rows {
        let from = step * k;
        let row = expr_rows::inner::eval_row(
            &mut stack,
            records.w,
            nv,
            &formula,
            &words[from..from + step],
        );
        bits = feed_row(answers, ROW_WORDS * k, row, rule.m, rule.window, bits);
    }
    bits
}

// All records: by rows as far as they go, then the rest.
// Inlined with `run_rule`.
#[inline(always)]
pub fn run(answers: &mut [u8], rule: &LentRule, past: u64, records: &Records) -> u64
    requires { IsReady rule.now records.now records.now.n × (records.now.n ≤ length answers.old) }
    ensures { Fed (marks rule.now records.now) past rule.now.m rule.now.window answers.old records.now.n answers.new result }
{
    let rows = records.n / ROW_WORDS;
    let bits = run_rows(answers, rule, past, rows, records);
    let at = ROW_WORDS * rows;
    run_rest(answers, rule, bits, at, records)
}

// `run_rule` with one record, whose answer is handed back, for a caller with single records. Refuses 1, 2, 4, 6, 10.
pub fn run_record(
    rule: &LentRule,
    nv: u32,
    w: u32,
    state: RuleState,
    words: &[u64],
) -> Result<RecordAnswer, Refusal>
    ensures { record_replied state result ≡ ran_alone rule.now nv w state words.now }
{
    let value = record_value(rule, nv, w, words)?;
    Ok(feed_record(value, rule.m, rule.window, state.past))
}
