// What the crates above call with a width that they have tested.
ghost use Rattle.std.specs.Prelude.{◌≡◌, ◌-◌, ◌^◌, ◌≤◌};
ghost use Rattle.row_gates.specs.Gates.{gate_at, gate_of, gate_row, residual_of, residual_row, same_row};

use crate::{Gate, ROW_WORDS};

// The gate of a number that is tested before; one above 4 is no gate's, and gives Mul.
pub fn gate_at(k: u32) -> Gate
    ensures { result ≡ gate_at k }
{
    Gate::try_from(k).unwrap_or(Gate::Mul)
}

// The mask of the w lowest bits, by a shift down from all ones. `arith::bitmask` makes the same word by a shift up; were it the mask of all gates, LLVM would
// join their arms in a loop over a row, and an index build take up to a tenth longer (docs/BENCHMARKS.md).
fn low_mask(w: u32) -> u64
    requires { w ≤ 64 }
    ensures { result ≡ 2 ^ w - 1 }
{
    if w == 0 { 0 } else { u64::MAX >> (64 - w) }
}

// One place of a gate.
pub fn gate_apply_lane(a: u64, b: u64, g: Gate, w: u32) -> u64
    requires { w ≤ 64 }
    ensures { result ≡ gate_of g w a b }
{
    match g {
        Gate::And => (a & b) & low_mask(w),
        Gate::Or => (a | b) & low_mask(w),
        Gate::Xor => (a ^ b) & low_mask(w),
        Gate::Add => arith::mod_add(a, b, w),
        Gate::Mul => arith::mod_mul(a, b, w),
    }
}

// One place of a residual.
pub fn residual_lane(target: u64, a: u64, g: Gate, w: u32) -> u64
    requires { w ≤ 64 }
    ensures { result ≡ residual_of g w target a }
{
    match g {
        Gate::Xor => arith::reduce(target ^ a, w),
        Gate::Add => arith::mod_sub(target, a, w),
        Gate::And => 0,
        Gate::Or => 0,
        Gate::Mul => 0,
    }
}

// A gate in each of the sixteen places.
pub fn gate_row(a: [u64; 16], b: [u64; 16], g: Gate, w: u32) -> [u64; 16]
    requires { w ≤ 64 }
    ensures { result ≡ gate_row g w a b }
{
    let mut row = [0u64; ROW_WORDS];
    for i in 0..ROW_WORDS {
        row[i] = gate_apply_lane(a[i], b[i], g, w);
    }
    row
}

// A residual in each of the sixteen places. A loop of its own beside the gates': over one closure for both the contracts would be no shorter, and LLVM joins arms.
pub fn residual_row(target: [u64; 16], a: [u64; 16], g: Gate, w: u32) -> [u64; 16]
    requires { w ≤ 64 }
    ensures { result ≡ residual_row g w target a }
{
    let mut row = [0u64; ROW_WORDS];
    for i in 0..ROW_WORDS {
        row[i] = residual_lane(target[i], a[i], g, w);
    }
    row
}

// Whether the gate of a and b is the target in all sixteen places. Stops at the first that differs.
pub fn row_matches(a: [u64; 16], b: [u64; 16], target: [u64; 16], g: Gate, w: u32) -> bool
    requires { w ≤ 64 }
    ensures { result ≡ same_row (gate_row g w a b) target }
{
    for place in 0..ROW_WORDS {
        if gate_apply_lane(a[place], b[place], g, w) != target[place] {
            return false;
        }
    }
    true
}
