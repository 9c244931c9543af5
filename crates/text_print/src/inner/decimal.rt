// Decimal numbers and words, as text in a lent buffer. Each function answers the place after what it wrote.
ghost use Rattle.std.specs.Prelude.{[], ◌∷◌, ◌++◌, ◌≡◌, ◌+◌, ◌/◌, ◌%◌, ◌^◌, ◌≤◌, ◌<◌, length};
ghost use Rattle.text_print.specs.Text.{decimal, field};
ghost use Rattle.text_print.specs.Printing.{Wrote, decimal_max, field_max, two_of, four_of, eight_of, lanes, bytes_of, Tenths};

// One byte, and one, two and three lanes of 16 bits, by what a number is multiplied to stand behind them in a word.
const BYTE: u64 = 0x100;

const LANE: u64 = 0x1_0000;

const LANES_2: u64 = 0x1_0000_0000;

const LANES_3: u64 = 0x1_0000_0000_0000;

// The bytes of eight zeros.
const ZEROS: u64 = 0x3030_3030_3030_3030;

// A function for each count of digits, and no loop: each divides by constants of its own, and its callers know how many bytes it writes at most.

// The digits of x: eight at a time from the end, while there are more than eight.
pub fn write_decimal(out: &mut [u8], at: usize, x: u64) -> usize
    requires { at + decimal_max ≤ length out.old }
    ensures { Wrote out.old at out.new result (decimal x) }
{
    if x < 100000000 {
        return write_eight(out, at, x);
    }
    let p = write_twelve(out, at, x / 100000000);
    put_eight(out, p, x % 100000000)
}

// The digits of a number with at most twelve.
fn write_twelve(out: &mut [u8], at: usize, x: u64) -> usize
    requires { (x < 1000000000000) × (at + 12 ≤ length out.old) }
    ensures wrote { Wrote out.old at out.new result (decimal x) }
    ensures upper_bound { result ≤ at + 12 }
{
    if x < 100000000 {
        return write_eight(out, at, x);
    }
    let p = write_four(out, at, x / 100000000);
    put_eight(out, p, x % 100000000)
}

// The digits of a number with at most eight.
fn write_eight(out: &mut [u8], at: usize, x: u64) -> usize
    requires { (x < 100000000) × (at + 8 ≤ length out.old) }
    ensures wrote { Wrote out.old at out.new result (decimal x) }
    ensures upper_bound { result ≤ at + 8 }
{
    if x < 10000 {
        return write_four(out, at, x);
    }
    let p = write_four(out, at, x / 10000);
    put_four(out, p, x % 10000)
}

// The digits of a number with at most four.
fn write_four(out: &mut [u8], at: usize, x: u64) -> usize
    requires { (x < 10000) × (at + 4 ≤ length out.old) }
    ensures wrote { Wrote out.old at out.new result (decimal x) }
    ensures upper_bound { result ≤ at + 4 }
{
    if x < 100 {
        return write_two(out, at, x);
    }
    let p = write_two(out, at, x / 100);
    put_two(out, p, x % 100)
}

// The digits of a number with at most two.
fn write_two(out: &mut [u8], at: usize, x: u64) -> usize
    requires { (x < 100) × (at + 2 ≤ length out.old) }
    ensures wrote { Wrote out.old at out.new result (decimal x) }
    ensures upper_bound { result ≤ at + 2 }
{
    if x < 10 {
        out[at] = b'0' + (x as u8);
        return at + 1;
    }
    put_two(out, at, x)
}

// Two digits, also where the first is 0.
fn put_two(out: &mut [u8], at: usize, x: u64) -> usize
    requires { (x < 100) × (at + 2 ≤ length out.old) }
    ensures wrote { Wrote out.old at out.new result (two_of x) }
    ensures value { result ≡ at + 2 }
{
    out[at] = b'0' + ((x / 10) as u8);
    out[at + 1] = b'0' + ((x % 10) as u8);
    at + 2
}

// Four.
fn put_four(out: &mut [u8], at: usize, x: u64) -> usize
    requires { (x < 10000) × (at + 4 ≤ length out.old) }
    ensures wrote { Wrote out.old at out.new result (four_of x) }
    ensures value { result ≡ at + 4 }
{
    let p = put_two(out, at, x / 100);
    put_two(out, p, x % 100)
}

// Eight, from one word: LLVM makes one store of the eight.
fn put_eight(out: &mut [u8], at: usize, x: u64) -> usize
    requires { (x < 100000000) × (at + 8 ≤ length out.old) }
    ensures wrote { Wrote out.old at out.new result (eight_of x) }
    ensures value { result ≡ at + 8 }
{
    let w = digits_of(x);
    let p = put_lane(out, at, w % LANE);
    let q = put_lane(out, p, w / LANE % LANE);
    let s = put_lane(out, q, w / LANES_2 % LANE);
    put_lane(out, s, w / LANES_3)
}

// The two bytes of a lane.
fn put_lane(out: &mut [u8], at: usize, n: u64) -> usize
    requires { (n < 2 ^ 16) × (at + 2 ≤ length out.old) }
    ensures wrote { Wrote out.old at out.new result ((n % 256) ∷ (n / 256) ∷ []) }
    ensures value { result ≡ at + 2 }
{
    out[at] = (n % BYTE) as u8;
    out[at + 1] = (n / BYTE) as u8;
    at + 2
}

// The bytes of x's eight digits as one word, the first lowest: a pair of digits a lane, and then its digits.
fn digits_of(x: u64) -> u64
    requires { x < 100000000 }
    ensures { result ≡ lanes (bytes_of (x / 10000 / 100)) (bytes_of (x / 10000 % 100)) (bytes_of (x % 10000 / 100)) (bytes_of (x % 10000 % 100)) }
{
    let high = x / 10000;
    let low = x % 10000;
    let hundreds = high / 100 + LANES_2 * (low / 100);
    let pairs = hundreds + LANE * (high + LANES_2 * low - 100 * hundreds);
    BYTE * pairs + ZEROS - (10 * BYTE - 1) * tens_of(pairs)
}

// The tenths of four pairs, each in its lane: 103 / 1024 of a number below 100 has the same whole part as its tenth.
fn tens_of(pairs: u64) -> u64
    requires { pairs < 2 ^ 56 }
    ensures { Tenths pairs result }
{
    let n = pairs * 103 / 1024;
    n % 16 + LANE * (n / LANE % 16) + LANES_2 * (n / LANES_2 % 16) + LANES_3 * (n / LANES_3 % 16)
}

// The digits of x, and one byte more.
pub fn write_field(out: &mut [u8], at: usize, x: u64, end: u8) -> usize
    requires { at + field_max ≤ length out.old }
    ensures wrote { Wrote out.old at out.new result (field x end) }
    ensures upper_bound { result ≤ at + field_max }
{
    let p = write_decimal(out, at, x);
    out[p] = end;
    p + 1
}

// All of s.
pub fn put(out: &mut [u8], at: usize, s: &[u8]) -> usize
    requires { at + length s.now ≤ length out.old }
    ensures { Wrote out.old at out.new result s.now }
{
    let end = at + s.len();
    out[at..end].copy_from_slice(s);
    end
}

// A word, and a number after it.
pub fn write_named(out: &mut [u8], at: usize, word: &[u8], x: u64, end: u8) -> usize
    requires { at + length word.now + field_max ≤ length out.old }
    ensures wrote { Wrote out.old at out.new result (word.now ++ field x end) }
    ensures upper_bound { result ≤ at + length word.now + field_max }
{
    let p = put(out, at, word);
    write_field(out, p, x, end)
}
