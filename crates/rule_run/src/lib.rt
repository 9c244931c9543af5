// A rule over a run of records: it fires when its formula was nonzero in at least M of the last W (document 02, 2.6).
#![tactic(auto)]

pub mod inner;

ghost use Rattle.std.specs.Prelude.{◌≡◌};
ghost use Rattle.rule_run.specs.Window.{replied};
ghost use Rattle.rule_run.specs.Lent.{ran_by};

use limits::Refusal;

// The widest window.
pub const MAX_WINDOW: u32 = 64;

// What a run has seen: bit i of `past` is 1 where the formula was nonzero i records before the last. Every value is a state; 0 is the
// empty one, from which a run starts.
#[derive(Clone, Copy)]
pub struct RuleState {
    pub past: u64,
}

// A rule as it is lent: its tokens, M and W.
#[derive(Clone, Copy)]
pub struct LentRule<'a> {
    pub token_count: usize,
    pub ops: &'a [u8],
    pub operands: &'a [u64],
    pub m: u32,
    pub window: u32,
}

// n records as they are lent: nv words of w bits each, one record after the other.
#[derive(Clone, Copy)]
pub struct Records<'a> {
    pub nv: u32,
    pub w: u32,
    pub n: usize,
    pub words: &'a [u64],
}

// Answers n records in the first places of `answers`: 1 where the formula was nonzero in at least m of the last `window` records, the
// present one included, else 0; the state that continues the run. The records before these n are those that the state has seen. Refuses 1, 2, 4, 6, 10.
// Inlined, so that a call with no records, by which log_rules tests a rule, has none of the run.
#[inline(always)]
pub fn run_rule(
    answers: &mut [u8],
    rule: &LentRule,
    state: RuleState,
    records: &Records,
) -> Result<RuleState, Refusal>
    ensures value { replied state result ≡ (ran_by rule.now state records.now answers.old).reply }
    ensures answers_after { answers.new ≡ (ran_by rule.now state records.now answers.old).answers }
{
    inner::check(answers, rule, records)?;
    let old = state.past;
    let past = inner::run(answers, rule, old, records);
    Ok(RuleState { past })
}
