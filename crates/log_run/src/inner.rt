// The steps of a run, with what was tested, and the whole call.
ghost use Rattle.std.specs.Prelude.{◌≡◌, not, ◌&&◌, ℕ, suc, ◌≤◌, ◌<◌, ltb, length, get_or};
ghost use Rattle.log_rules.specs.Rules.{bad_ranks};
ghost use Rattle.log_rules.specs.Firing.{no_rank};
ghost use Rattle.log_rules.specs.Lent.{Fit};
ghost use Rattle.log_run.specs.Step.{capped, noted};
ghost use Rattle.log_run.specs.Steps.{took_of, took_says, noted_over};
ghost use Rattle.log_run.specs.Lent.{logged_by, TakesLent};

use crate::Shown;
use limits::Refusal;
use log_rules::LentRules;
use log_rules::inner::NO_RANK;
use rule_run::Records;

// How many records go at once where there are few of them, and where there are many.
const FEW: usize = 16;

const MANY: usize = 256;

// ---- what is shown

// One more, and at 2^64 - 1 no more.
fn one_more(n: u64) -> u64
    ensures { result ≡ capped (suc n) }
{
    n.saturating_add(1)
}

// One record more, on which a rank is the least that fires.
fn note(shown: Shown, rank: u8) -> Shown
    ensures { result ≡ noted rank shown }
{
    let number = one_more(shown.number);
    let later = one_more(shown.later);
    if NO_RANK <= rank {
        return Shown {
            number,
            close: shown.close,
            later: shown.later,
            rank: shown.rank,
        };
    }
    if shown.close == 0 {
        return Shown {
            number,
            close: number,
            later: shown.later, // the record that closes is no later one
            rank: rank as u32,
        };
    }
    Shown {
        number,
        close: shown.close,
        later,
        rank: shown.rank, // whatever rank fires now
    }
}

// The same for n records.
fn note_all(fired: &[u8], shown: Shown, n: usize) -> Shown
    requires { n ≤ length fired.now }
    ensures { result ≡ noted_over (λ (k : ℕ). get_or fired.now k 0) shown n }
{
    let mut s = shown;
    for k in 0..n {
        s = note(s, fired[k]);
    }
    s
}

// ---- runs

// Whether there are records to take: a sounding is open, n isn't 0, and no rank is bad.
pub fn feeds(begun: bool, count: usize, ranks: &[u32], n: usize) -> bool
    requires { count ≤ length ranks.now }
    ensures { result ≡ (begun && (ltb 0 n && not (bad_ranks count ranks.now))) }
{
    begun && n != 0 && !log_rules::inner::bad_ranks(count, ranks)
}

// n records of an open sounding, with a place for each in `fired` and `answers`; `seen` are the windows.
fn run_over(
    fired: &mut [u8],
    answers: &mut [u8],
    seen: &mut [u64],
    shown: Shown,
    rules: &LentRules,
    records: &Records,
) -> Result<Shown, Refusal>
    requires lends { Fit rules.now records.now seen.old }
    requires le_n { (1 ≤ records.now.n) × ((records.now.n ≤ length answers.old) × ((records.now.n ≤ length fired.old) × ((k : ℕ) → k < records.now.n → get_or fired.old k 0 ≡ no_rank))) }
    ensures { TakesLent rules.now records.now seen.old shown seen.new (took_of shown result) }
{
    log_rules::inner::feed_rules(fired, answers, seen, rules, records)?;
    Ok(note_all(fired, shown, records.n))
}

// At most as many records as there is place for in the two buffers.
fn run_within<const PLACES: usize>(
    seen: &mut [u64],
    shown: Shown,
    rules: &LentRules,
    records: &Records,
) -> Result<Shown, Refusal>
    requires lends { Fit rules.now records.now seen.old }
    requires le_n { (1 ≤ records.now.n) × ((records.now.n ≤ PLACES) × (PLACES ≤ 256)) }
    ensures { TakesLent rules.now records.now seen.old shown seen.new (took_of shown result) }
{
    let mut fired = [NO_RANK; PLACES];
    let mut answers = [0u8; PLACES];
    run_over(&mut fired, &mut answers, seen, shown, rules, records)
}

// How many of the records that are left go at once.
fn at_once(left: usize) -> usize
    requires { 1 ≤ left }
    ensures { (1 ≤ result) × ((result ≤ left) × (result ≤ 256)) }
{
    left.min(MANY)
}

// All records, part after part, as long as no rule is refused.
fn run_parts(
    seen: &mut [u64],
    shown: Shown,
    rules: &LentRules,
    records: &Records,
) -> Result<Shown, Refusal>
    requires lends { Fit rules.now records.now seen.old }
    requires le_n { 1 ≤ records.now.n }
    ensures { TakesLent rules.now records.now seen.old shown seen.new (took_of shown result) }
{
    let n = records.n;
    let nv = records.nv as usize;
    let words = records.words;
    let mut now = shown;
    let mut at: usize = 0;
    // no count: a step is as long as the part
    while at < n {
        let size = at_once(n - at);
        let from = nv * at;
        let part = Records {
            nv: records.nv,
            w: records.w,
            n: size,
            words: &words[from..from + nv * size],
        };
        now = run_within::<MANY>(seen, now, rules, &part)?;
        at += size;
    }
    Ok(now)
}

// The same, with small buffers where there are few records.
fn run_all(
    seen: &mut [u64],
    shown: Shown,
    rules: &LentRules,
    records: &Records,
) -> Result<Shown, Refusal>
    requires lends { Fit rules.now records.now seen.old }
    requires le_n { 1 ≤ records.now.n }
    ensures { TakesLent rules.now records.now seen.old shown seen.new (took_of shown result) }
{
    if records.n <= FEW {
        return run_within::<FEW>(seen, shown, rules, records);
    }
    run_parts(seen, shown, rules, records)
}

// One record, with no place for answers.
fn run_one(
    seen: &mut [u64],
    shown: Shown,
    rules: &LentRules,
    records: &Records,
) -> Result<Shown, Refusal>
    requires { Fit rules.now records.now seen.old × (records.now.n ≡ 1) }
    ensures { TakesLent rules.now records.now seen.old shown seen.new (took_of shown result) }
{
    let rank = log_rules::inner::feed_record(seen, rules, records.nv, records.w, records.words)?;
    Ok(note(shown, rank))
}

// All records of an open sounding, by how many there are.
fn run(
    seen: &mut [u64],
    shown: Shown,
    rules: &LentRules,
    records: &Records,
) -> Result<Shown, Refusal>
    requires lends { Fit rules.now records.now seen.old }
    requires le_n { 1 ≤ records.now.n }
    ensures { TakesLent rules.now records.now seen.old shown seen.new (took_of shown result) }
{
    if records.n == 1 {
        return run_one(seen, shown, rules, records);
    }
    run_all(seen, shown, rules, records)
}

// The whole call over the parts of a log. `seen`, its windows, is changed in place; where the call is refused it may hold anything.
pub fn take(
    seen: &mut [u64],
    begun: bool,
    shown: Shown,
    rules: &LentRules,
    records: &Records,
) -> Result<Shown, Refusal>
    requires { length seen.old ≡ 8 }
    ensures { took_says (record { windows = seen.old; shown = shown; begun = begun }) seen.new (took_of shown result) ≡ logged_by rules.now (record { windows = seen.old; shown = shown; begun = begun }) records.now }
{
    // a match: with `?` the proof of its return did not close
    match log_rules::inner::check(rules, records) {
        Ok(_) => {}
        Err(refusal) => return Err(refusal),
    }
    if feeds(begun, rules.count, rules.ranks, records.n) {
        return run(seen, shown, rules, records);
    }
    match log_rules::inner::check_rules(rules, records) {
        Ok(_) => Ok(shown),
        Err(refusal) => Err(refusal),
    }
}
