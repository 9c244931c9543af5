// The rules of a closing log as they are lent: which of them fire on each record, by what the windowed rule promises (document 02, 2.7).
#![tactic(auto)]

pub mod inner;

ghost use Rattle.std.specs.Prelude.{◌≡◌};
ghost use Rattle.log_rules.specs.Rules.{rule_at};
ghost use Rattle.log_rules.specs.Lent.{rules_of, rule_of, IsThere};

use expr::MAX_TOKENS;
use rule_run::LentRule;

// The most rules.
pub const MAX_RULES: usize = 8;

// Rules as they are lent: of rule i the values at place i, and the opcodes and operands from place 64 i on.
#[derive(Clone, Copy)]
pub struct LentRules<'a> {
    pub count: usize,
    pub ranks: &'a [u32],
    pub ms: &'a [u32],
    pub windows: &'a [u32],
    pub token_counts: &'a [u32],
    pub ops: &'a [u8],
    pub operands: &'a [u64],
}

impl<'a> LentRules<'a> {
    // The rule at place i.
    pub(crate) fn rule(&self, i: usize) -> LentRule<'a>
        requires { IsThere self.now i }
        ensures { rule_of result ≡ rule_at (rules_of self.now) i }
    {
        let from = MAX_TOKENS * i;
        LentRule {
            token_count: self.token_counts[i] as usize,
            ops: &self.ops[from..from + MAX_TOKENS],
            operands: &self.operands[from..from + MAX_TOKENS],
            m: self.ms[i],
            window: self.windows[i],
        }
    }
}
