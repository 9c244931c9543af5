// The rules over records, and what is refused of them, with what was tested.
ghost use Rattle.std.specs.Prelude.{◌≡◌, Ok, cond, [], ◌∷◌, ℕ, ◌≤◌, ◌<◌, eqb, length, get_or};
ghost use Rattle.limits.specs.Refusal.{refuse, refusal_of};
ghost use Rattle.rule_run.specs.Window.{replied};
ghost use Rattle.rule_run.specs.Steps.{record_replied, record_answer};
ghost use Rattle.log_rules.specs.Rules.{same_rank, bad_ranks, short_rules};
ghost use Rattle.log_rules.specs.Firing.{no_rank, lesser};
ghost use Rattle.log_rules.specs.Steps.{formulas_refusal, rules_refusal, rule_refusal, least_number, Lends, LendsAt, Ranked, fires_on, past_at, rank_at, window_at};
ghost use Rattle.log_rules.specs.Lent.{rules_of, lent_rule, ran_by, ran_alone, refusal_at, past_of, firing, window_of, least_at, AreLent, IsLent, Fit};

use crate::{LentRules, MAX_RULES};
use expr::MAX_TOKENS;
use limits::Refusal;
use rule_run::inner::RecordAnswer;
use rule_run::{LentRule, Records, RuleState};

// More than every rank: no rule fires. A number and no `Option`, so that it loses every comparison and a byte of a lent array holds it.
pub const NO_RANK: u8 = 9;

// ---- refusals

// Whether an array is too short for the rules claimed: refusal 4.
fn short_rules(rules: &LentRules) -> bool
    ensures { result ≡ short_rules (rules_of rules.now) }
{
    // a test each: joined by `||` the proof did not close
    if rules.ranks.len() < rules.count {
        return true;
    }
    if rules.ms.len() < rules.count {
        return true;
    }
    if rules.windows.len() < rules.count {
        return true;
    }
    if rules.token_counts.len() < rules.count {
        return true;
    }
    if rules.ops.len() / MAX_TOKENS < rules.count {
        return true;
    }
    rules.operands.len() / MAX_TOKENS < rules.count
}

// Whether a call is refused for what is lent: 1, 2 or 4.
pub fn check(rules: &LentRules, records: &Records) -> Result<(), Refusal>
    ensures { refusal_of result ≡ refusal_at rules.now records.now }
{
    if limits::inner::bad_count(records.nv) {
        return Err(Refusal::VariableCount);
    }
    if limits::inner::bad_width(records.w) {
        return Err(Refusal::Width);
    }
    if short_rules(rules) {
        return Err(Refusal::ShortArray);
    }
    if records.words.len() / (records.nv as usize) < records.n {
        return Err(Refusal::ShortArray);
    }
    Ok(())
}

// Whether an earlier place has the same rank.
fn same_rank(ranks: &[u32], i: usize) -> bool
    requires { i < length ranks.now }
    ensures { result ≡ same_rank ranks.now i }
{
    let rank = ranks[i];
    for j in 0..i {
        if ranks[j] == rank {
            return true;
        }
    }
    false
}

// Whether there is no rule or more than eight, a rank isn't 1 to 8, or two are equal: refusal 11.
pub fn bad_ranks(count: usize, ranks: &[u32]) -> bool
    requires { count ≤ length ranks.now }
    ensures { result ≡ bad_ranks count ranks.now }
{
    if limits::inner::outside(count as u64, 1, MAX_RULES as u64) {
        return true;
    }
    for i in 0..count {
        if limits::inner::outside(ranks[i] as u64, 1, MAX_RULES as u64) {
            return true;
        }
        if same_rank(ranks, i) {
            return true;
        }
    }
    false
}

// Of two tests the one with the least refusal.
fn least_refusal(a: Result<(), Refusal>, b: Result<(), Refusal>) -> Result<(), Refusal>
    ensures { refusal_of result ≡ least_number (refusal_of a) (refusal_of b) }
{
    match b {
        Ok(_) => a,
        Err(y) => match a {
            Ok(_) => b,
            Err(x) => { if u32::from(y) < u32::from(x) { b } else { a } }
        },
    }
}

// A test alone, whatever stands for its value: with `?` in place of the match the proof of the return did not close.
fn test_of<T: Copy>(x: Result<T, Refusal>) -> Result<(), Refusal>
    ensures { refusal_of result ≡ refusal_of x }
{
    match x {
        Ok(_) => Ok(()),
        Err(refusal) => Err(refusal),
    }
}

// ---- the rules

// One rule over records. A rule has 64 places: with more tokens claimed it is no formula. Inlined with the run, so that `check_rules`, which takes no record, has none of it.
#[inline(always)]
fn ask(
    answers: &mut [u8],
    rule: &LentRule,
    past: u64,
    records: &Records,
) -> Result<RuleState, Refusal>
    ensures value { replied (record { past = past }) result ≡ (ran_by rule.now past records.now answers.old).reply }
    ensures answers_after { answers.new ≡ (ran_by rule.now past records.now answers.old).answers }
{
    if MAX_TOKENS < rule.token_count {
        return Err(Refusal::Formula);
    }
    rule_run::run_rule(answers, rule, RuleState { past }, records)
}

// The rule at place i over records: where it isn't refused, its window after them, and in `answers` where it fires.
// Inlined with `ask`.
#[inline(always)]
fn ask_at(
    answers: &mut [u8],
    i: usize,
    rules: &LentRules,
    past: u64,
    records: &Records,
) -> Result<RuleState, Refusal>
    requires { IsLent rules.now i records.now × (records.now.n ≤ length answers.old) }
    ensures refusal_value { refusal_of result ≡ rule_refusal records.now.nv (lent_rule rules.now i) }
    ensures past_value { refusal_of result ≡ 0 → (replied (record { past = past }) result).state.past ≡ past_of rules.now i records.now past }
    ensures k_after { refusal_of result ≡ 0 → (k : ℕ) → k < records.now.n → eqb (get_or answers.new k 0) 1 ≡ firing rules.now i records.now past k }
{
    ask(answers, &rules.rule(i), past, records)
}

// A refusal, or 11 after it.
fn ranks_after(tested: Result<(), Refusal>, count: usize, ranks: &[u32]) -> Result<(), Refusal>
    requires { count ≤ length ranks.now }
    ensures { refusal_of result ≡ cond (eqb (refusal_of tested) 0) (refuse (bad_ranks count ranks.now) 11 0) (refusal_of tested) }
{
    tested?;
    if bad_ranks(count, ranks) {
        Err(Refusal::Ranks)
    } else {
        Ok(())
    }
}

// The state that a caller has after a call: beside a refusal the one that it handed in.
fn past_after(x: Result<RuleState, Refusal>, past: u64) -> u64
    ensures { result ≡ (replied (record { past = past }) x).state.past }
{
    match x {
        Ok(state) => state.past,
        Err(_) => past,
    }
}

// Whether a call is refused by the least of 6, 10 and 11 that applies, over all rules. No record is taken.
pub fn check_rules(rules: &LentRules, records: &Records) -> Result<(), Refusal>
    requires { AreLent rules.now records.now }
    ensures { refusal_of result ≡ rules_refusal records.now.nv (rules_of rules.now) }
{
    let untaken = Records {
        nv: records.nv,
        w: records.w,
        n: 0,
        words: records.words,
    };
    let mut none = [0u8; 1];
    let mut tested = Ok(());
    for i in 0..rules.count {
        let x = ask_at(&mut none, i, rules, 0, &untaken);
        tested = least_refusal(tested, test_of(x));
    }
    ranks_after(tested, rules.count, rules.ranks)
}

// The least rank so far, and one that fires or not.
fn offered(least: u8, answer: u8, rank: u8) -> u8
    ensures { result ≡ cond (eqb answer 1) (lesser least rank) least }
{
    if answer != 1 {
        return least;
    }
    least.min(rank)
}

// A rule's rank at the records where it fires, if it is less than what stands there.
fn offer(fired: &mut [u8], answers: &[u8], rank: u8, n: usize)
    requires { (n ≤ length fired.old) × (n ≤ length answers.now) }
    ensures { (k : ℕ) → k < n → get_or fired.new k 0 ≡ cond (eqb (get_or answers.now k 0) 1) (lesser (get_or fired.old k 0) rank) (get_or fired.old k 0) }
{
    for k in 0..n {
        fired[k] = offered(fired[k], answers[k], rank);
    }
}

// All rules over records: in `fired`, which has nothing but NO_RANK, the least rank that fires on each, and in `seen` their windows after
// them. Refused by the least number by which a rule is.
pub fn feed_rules(
    fired: &mut [u8],
    answers: &mut [u8],
    seen: &mut [u64],
    rules: &LentRules,
    records: &Records,
) -> Result<(), Refusal>
    requires lends { Fit rules.now records.now seen.old }
    requires n_in_bounds { (records.now.n ≤ length answers.old) × ((records.now.n ≤ length fired.old) × ((k : ℕ) → k < records.now.n → get_or fired.old k 0 ≡ no_rank)) }
    ensures value { refusal_of result ≡ formulas_refusal records.now.nv (rules_of rules.now) rules.now.count }
    ensures i_after { refusal_of result ≡ 0 → (i : ℕ) → get_or seen.new i 0 ≡ window_of rules.now records.now seen.old i }
    ensures k_after { refusal_of result ≡ 0 → (k : ℕ) → k < records.now.n → get_or fired.new k 0 ≡ least_at rules.now records.now seen.old k }
{
    let mut tested = Ok(());
    for i in 0..rules.count {
        let x = ask_at(answers, i, rules, seen[i], records);
        seen[i] = past_after(x, seen[i]);
        offer(fired, answers, rules.ranks[i] as u8, records.n);
        tested = least_refusal(tested, test_of(x));
    }
    tested
}

// ---- one record

// One rule over one record. A rule has 64 places: with more tokens claimed it is no formula.
fn ask_record(
    rule: &LentRule,
    nv: u32,
    w: u32,
    past: u64,
    words: &[u64],
) -> Result<RecordAnswer, Refusal>
    ensures { record_replied (record { past = past }) result ≡ record_answer (ran_alone rule.now nv w past words.now) }
{
    if MAX_TOKENS < rule.token_count {
        return Err(Refusal::Formula);
    }
    rule_run::inner::run_record(rule, nv, w, RuleState { past }, words)
}

// The rule at place i over one record: where it isn't refused, its window after it, and whether it fires.
fn ask_record_at(
    i: usize,
    rules: &LentRules,
    nv: u32,
    w: u32,
    past: u64,
    words: &[u64],
) -> Result<RecordAnswer, Refusal>
    requires { LendsAt nv w i rules.now.ms.now rules.now.windows.now rules.now.token_counts.now rules.now.ops.now rules.now.operands.now 1 words.now }
    ensures refusal_value { refusal_of result ≡ rule_refusal nv (lent_rule rules.now i) }
    ensures past_value { refusal_of result ≡ 0 → (record_replied (record { past = past }) result).state.past ≡ past_at nv w (lent_rule rules.now i) words.now past 1 }
    ensures answer_value { refusal_of result ≡ 0 → eqb (record_replied (record { past = past }) result).answer 1 ≡ fires_on nv w (lent_rule rules.now i) words.now past 0 }
{
    ask_record(&rules.rule(i), nv, w, past, words)
}

// The answer and the state that a caller has after a record: beside a refusal 0, and the state that it handed in.
fn record_after(x: Result<RecordAnswer, Refusal>, past: u64) -> RecordAnswer
    ensures answer_value { result.answer ≡ (record_replied (record { past = past }) x).answer }
    ensures past_value { result.state.past ≡ (record_replied (record { past = past }) x).state.past }
{
    match x {
        Ok(y) => y,
        Err(_) => RecordAnswer::refused(RuleState { past }),
    }
}

// All rules over one record: as `feed_rules`, with no place for answers. The least rank that fires.
pub fn feed_record(
    seen: &mut [u64],
    rules: &LentRules,
    nv: u32,
    w: u32,
    words: &[u64],
) -> Result<u8, Refusal>
    requires { Lends nv w (rules_of rules.now) 1 words.now × (Ranked (rules_of rules.now) × (length seen.old ≡ 8)) }
    ensures refusal_value { refusal_of result ≡ formulas_refusal nv (rules_of rules.now) rules.now.count }
    ensures i_after { refusal_of result ≡ 0 → (i : ℕ) → get_or seen.new i 0 ≡ window_at nv w (rules_of rules.now) words.now seen.old rules.now.count 1 i }
    ensures rank_value { (rank : ℕ) → result ≡ Ok rank → rank ≡ rank_at nv w (rules_of rules.now) words.now seen.old rules.now.count 0 }
{
    let mut tested = Ok(());
    let mut rank = NO_RANK;
    for i in 0..rules.count {
        let x = ask_record_at(i, rules, nv, w, seen[i], words);
        let y = record_after(x, seen[i]);
        seen[i] = y.state.past;
        rank = offered(rank, y.answer, rules.ranks[i] as u8);
        tested = least_refusal(tested, test_of(x));
    }
    match tested {
        Ok(_) => Ok(rank),
        Err(refusal) => Err(refusal),
    }
}
