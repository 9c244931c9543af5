// Gates on rows of sixteen words, from cobra-simd lib.rs, whose scalar path is the reference on reduced words; a width takes the place of the mask.
#![tactic(auto)]

pub mod inner;

ghost use Rattle.std.specs.Prelude.{◌≡◌, ltb};
ghost use Rattle.limits.specs.Refusal.{refuse, says, outcome};
ghost use Rattle.row_gates.specs.Gates.{gate_number, gate_at, applied, residual, matched};

use limits::Refusal;

// The words of a row (N_PROBES).
pub const ROW_WORDS: usize = 16;

// 01's gates, in the order of their numbers.
#[derive(Clone, Copy, Debug, PartialEq, Eq)]
pub enum Gate {
    And,
    Or,
    Xor,
    Add,
    Mul,
}

// All gates, each at its number.
pub const GATES: [Gate; 5] = [Gate::And, Gate::Or, Gate::Xor, Gate::Add, Gate::Mul];

// The number of a gate.
impl From<Gate> for u32 {
    ghost from_gives = { λ g n. n ≡ gate_number g };

    fn from(g: Gate) -> u32 {
        match g {
            Gate::And => 0,
            Gate::Or => 1,
            Gate::Xor => 2,
            Gate::Add => 3,
            Gate::Mul => 4,
        }
    }
}

// The gate of a number. One above 4 is no gate's: refusal 6, which a token with it has.
impl TryFrom<u32> for Gate {
    type Error = Refusal;

    ghost try_from_gives = { λ k r. says r ≡ outcome (refuse (ltb 4 k) 6 0) (gate_at k) };

    fn try_from(k: u32) -> Result<Gate, Refusal> {
        match k {
            0 => Ok(Gate::And),
            1 => Ok(Gate::Or),
            2 => Ok(Gate::Xor),
            3 => Ok(Gate::Add),
            4 => Ok(Gate::Mul),
            _ => Err(Refusal::Formula),
        }
    }
}

// The gate of a and b in each place, reduced to the width; words may be raw, at or above 2^w. Refuses 2.
pub fn gate_apply(a: [u64; 16], b: [u64; 16], g: Gate, w: u32) -> Result<[u64; 16], Refusal>
    ensures { says result ≡ applied g w a b }
{
    if limits::inner::bad_width(w) {
        return Err(Refusal::Width);
    }
    Ok(inner::gate_row(a, b, g, w))
}

// The row that completes a to the target under Xor or Add, reduced to the width; sixteen zeros under the other gates. Refuses 2.
pub fn gate_residual(target: [u64; 16], a: [u64; 16], g: Gate, w: u32) -> Result<[u64; 16], Refusal>
    ensures { says result ≡ residual g w target a }
{
    if limits::inner::bad_width(w) {
        return Err(Refusal::Width);
    }
    Ok(inner::residual_row(target, a, g, w))
}

// Whether the gate of a and b, reduced, is the target as it is, in all sixteen places: one with a word at or above 2^w never is. Refuses 2.
pub fn gate_matches(
    a: [u64; 16],
    b: [u64; 16],
    target: [u64; 16],
    g: Gate,
    w: u32,
) -> Result<bool, Refusal>
    ensures { says result ≡ matched g w a b target }
{
    if limits::inner::bad_width(w) {
        return Err(Refusal::Width);
    }
    Ok(inner::row_matches(a, b, target, g, w))
}
