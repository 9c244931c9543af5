// Arithmetic on words of w bits, from arith.rs. The modulus is 2^w, and 2^64 for every w above 64, so that no call refuses a width.
#![tactic(auto)]

ghost use Rattle.std.specs.Prelude.{◌≡◌, ℕ, ◌+◌, ◌-◌, ◌*◌, ◌%◌, ◌^◌, ◌≤◌};
ghost use Rattle.arith.specs.Word.{modulus, not_of, neg_of, sub_of};
ghost use Rattle.arith.specs.Cong.{Cong, Inverse};

// The mask of the w lowest bits: 0 at 0, all ones from 64 up.
pub fn bitmask(w: u32) -> u64
    ensures { result ≡ modulus w - 1 }
{
    if w < 64 { (1u64 << w) - 1 } else { u64::MAX }
}

// x modulo 2^w, with no division.
pub fn reduce(x: u64, w: u32) -> u64
    ensures { result ≡ x % modulus w }
{
    x & bitmask(w)
}

// a × b modulo 2^64, from halves of 32 bits: LLVM makes one multiply of it.
pub fn wrapping_mul(a: u64, b: u64) -> u64
    ensures { result ≡ (a * b) % 2 ^ 64 }
{
    let a0 = a & 0xffff_ffff;
    let a1 = a >> 32;
    let b0 = b & 0xffff_ffff;
    let b1 = b >> 32;
    let cross = std::num::wrapping_add_u64(a0 * b1, a1 * b0);
    std::num::wrapping_add_u64(cross << 32, a0 * b0)
}

// a + b modulo 2^w.
pub fn mod_add(a: u64, b: u64, w: u32) -> u64
    ensures { result ≡ (a + b) % modulus w }
{
    reduce(std::num::wrapping_add_u64(a, b), w)
}

// a - b modulo 2^w.
pub fn mod_sub(a: u64, b: u64, w: u32) -> u64
    ensures { result ≡ sub_of (modulus w) a b }
{
    reduce(std::num::wrapping_sub_u64(a, b), w)
}

// a × b modulo 2^w.
pub fn mod_mul(a: u64, b: u64, w: u32) -> u64
    ensures { result ≡ (a * b) % modulus w }
{
    reduce(wrapping_mul(a, b), w)
}

// v reduced, with each of its w bits inverted: 2^w - 1 - v.
pub fn mod_not(v: u64, w: u32) -> u64
    ensures { result ≡ not_of (modulus w) v }
{
    let mask = bitmask(w);
    mask - (v & mask)
}

// 0 - v modulo 2^w.
pub fn mod_neg(v: u64, w: u32) -> u64
    ensures { result ≡ neg_of (modulus w) v }
{
    mod_sub(0, v, w)
}

// The number below 2^k whose product with m is 1 modulo 2^k; an even m has none, unless k is 0, and gets 0.
pub fn mod_inverse_odd(m: u64, k: u32) -> u64
    ensures { Inverse (modulus k) m result }
{
    if m % 2 == 0 {
        return 0;
    }
    reduce(inverse_64(m), k)
}

// The inverse modulo 2^64 by Newton's iteration: m itself is right in three bits, and each step doubles them.
fn inverse_64(m: u64) -> u64
    requires { m % 2 ≡ 1 }
    ensures { Cong (2 ^ 64) (m * result) 1 }
{
    newton_step(
        m,
        newton_step(m, newton_step(m, newton_step(m, newton_step(m, m)))),
    )
}

// x × (2 - m × x): where x is the inverse of m in j bits, the result is in twice as many.
fn newton_step(m: u64, x: u64) -> u64
    ensures { (j : ℕ) → 1 ≤ j → j + j ≤ 64 → Cong (2 ^ j) (m * x) 1 → Cong (2 ^ (j + j)) (m * result) 1 }
{
    wrapping_mul(x, std::num::wrapping_sub_u64(2, wrapping_mul(m, x)))
}
