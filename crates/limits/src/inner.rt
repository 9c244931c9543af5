// The range tests behind refusals 1 and 2, for the crates above.
ghost use Rattle.std.specs.Prelude.{◌≡◌};
ghost use Rattle.limits.specs.Refusal.{outside_of, bad_count, bad_width};

use crate::{MAX_VARS, MAX_WIDTH};

// Whether n is below `low` or above `high`.
pub fn outside(n: u64, low: u64, high: u64) -> bool
    ensures { result ≡ outside_of low high n }
{
    if n < low {
        return true;
    }
    high < n
}

// Whether a variable count is not 1 to 6: refusal 1.
pub fn bad_count(nv: u32) -> bool
    ensures { result ≡ bad_count nv }
{
    outside(nv as u64, 1, MAX_VARS as u64)
}

// Whether a width is not 1 to 64: refusal 2.
pub fn bad_width(w: u32) -> bool
    ensures { result ≡ bad_width w }
{
    outside(w as u64, 1, MAX_WIDTH as u64)
}
