// The trials of an index build: gates in number order, b ascending, c from b upward.
ghost use Rattle.std.specs.Prelude.{◌≡◌, ◌<◌};
ghost use Rattle.index_spec.specs.Index.{all_gates, first_c, trials_with, trials_of_gate, trials_of};
ghost use Rattle.index_trial.specs.Steps.{IsReady, Tried, SameLent};

use index_trial::inner::{Build, Tally, Trial};
use row_gates::{GATES, Gate};
use row_lent::AtomSlot;

// The first c that a gate tries with b: And and Or of an atom with itself are passed over.
fn first_c(g: Gate, b: usize) -> usize
    requires { b < 479 }
    ensures { result ≡ first_c g b }
{
    match g {
        Gate::And | Gate::Or => b + 1,
        Gate::Xor | Gate::Add | Gate::Mul => b,
    }
}

// The trials of a gate with atom b: c ascending.
fn try_with(build: &mut Build<'_>, n: usize, g: Gate, b: AtomSlot) -> Tally
    requires { IsReady build.old n × (b.0 < build.old.job.count) }
    ensures tried { Tried build.old build.new n result (trials_with build.old.job.count g b.0) }
    ensures same { SameLent build.old build.new }
{
    let count = build.job.count;
    let mut made = n;
    for c in first_c(g, b.0 as usize)..count {
        let slot = AtomSlot(c as u32);
        let t = build.try_pair(
            made,
            Trial {
                gate: g,
                b,
                c: slot,
            },
        );
        if t.cut {
            return t;
        }
        made = t.pairs;
    }
    Tally {
        pairs: made,
        cut: false,
    }
}

// The trials of a gate: b ascending.
fn try_gate(build: &mut Build<'_>, n: usize, g: Gate) -> Tally
    requires { IsReady build.old n }
    ensures tried { Tried build.old build.new n result (trials_of_gate build.old.job.count g) }
    ensures same { SameLent build.old build.new }
{
    let count = build.job.count;
    let mut made = n;
    for b in 0..count {
        let slot = AtomSlot(b as u32);
        let t = try_with(build, made, g, slot);
        if t.cut {
            return t;
        }
        made = t.pairs;
    }
    Tally {
        pairs: made,
        cut: false,
    }
}

// All trials: gates in number order.
pub fn try_gates(build: &mut Build<'_>) -> Tally
    requires { IsReady build.old 0 }
    ensures tried { Tried build.old build.new 0 result (trials_of all_gates build.old.job.count) }
    ensures same { SameLent build.old build.new }
{
    let mut made: usize = 0;
    for g in GATES {
        let t = try_gate(build, made, g);
        if t.cut {
            return t;
        }
        made = t.pairs;
    }
    Tally {
        pairs: made,
        cut: false,
    }
}
