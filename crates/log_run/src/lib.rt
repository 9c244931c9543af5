// The closing log of a station: each sounding is closed once, by the rule that wins (document 02, 2.7).
#![tactic(auto)]

pub mod inner;

ghost use Rattle.std.specs.Prelude.{◌≡◌};
ghost use Rattle.log_run.specs.Step.{replied, opened};
ghost use Rattle.log_run.specs.Lent.{logged_by};

use limits::Refusal;
use log_rules::LentRules;
use rule_run::Records;

// What the log shows of its sounding: the number of the last record, the number of the record that closed it and the rank that won (0 and
// 0 for none: C may lend any numbers, and every value is a log), and how many later records had a firing. Number and count stay at 2^64 - 1.
#[derive(Clone, Copy)]
pub struct Shown {
    pub number: u64,
    pub close: u64,
    pub later: u64,
    pub rank: u32,
}

// Whether a sounding was opened, what is shown of it, and what the window of the rule at each place has seen (`RuleState` of rule_run).
// Every value is a log; the empty one is false and zeros.
#[derive(Clone, Copy)]
pub struct Log {
    pub windows: [u64; 8],
    pub shown: Shown,
    pub begun: bool,
}

// Starts a sounding and its windows afresh; the earlier one gets no close from then on.
pub fn open_log(log: Log) -> Log
    ensures { result ≡ opened log }
{
    Log {
        windows: [0; 8],
        shown: Shown {
            number: 0,
            close: 0,
            later: 0,
            rank: 0,
        },
        begun: true,
    }
}

// Takes the records in turn, and answers the log after them: on the first where some rule fires the sounding is closed with that record's number and the least rank that
// fires; later records with a firing are only counted; without a sounding nothing changes. Refuses 1, 2, 4, 6, 10, 11, the least first, over every claimed rule, before any
// opening too.
pub fn run_log(log: Log, rules: &LentRules, records: &Records) -> Result<Log, Refusal>
    ensures { replied log result ≡ logged_by rules.now log records.now }
{
    let mut seen = log.windows;
    let shown = inner::take(&mut seen, log.begun, log.shown, rules, records)?;
    Ok(Log {
        windows: seen,
        shown,
        begun: log.begun,
    })
}
