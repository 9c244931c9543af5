// The input of the listing and of the test load: unsigned decimals out of a text that comes in parts of any size.
#![tactic(auto)]

ghost use Rattle.std.specs.Prelude.{◌≡◌, ℕ, ◌+◌, ◌*◌, ◌^◌, ◌<◌, true, false, List, [], ◌++◌, length, ◌==◌};
ghost use Rattle.text_parse.specs.Text.{is_parting, is_digit, listing_many, load_many};
ghost use Rattle.text_parse.specs.Reading.{Reads, Ends};
ghost use Rattle.text_parse.specs.Steps.{joined, Fed, Kept, Parted, AtEnd, answered};

// The numbers that are kept: those of six variables.
pub const NUMBERS_MAX: usize = 115;

// The numbers of a text whose first number is 0, and how many more there are for each variable.
const NUMBERS_LEAST: u64 = 19;

const NUMBERS_MORE: u64 = 16;

// The numbers of a test load's text.
const LOAD_NUMBERS: u64 = 5;

// The largest value that a number may have, and the largest that may get another digit.
const VALUE_MAX: u64 = 18446744073709551615;

const VALUE_TENTH: u64 = 1844674407370955161;

// Where a reading stands: the numbers read so far, of which the first are kept; whether it is within a number, and that number's value so far:
// two fields, as an Option's padding goes through memory on every byte (see `feed`); whether the text is spoilt: refusal 9 lets no text through that begins so. Its fields are private: every state comes from `begin` and `feed`, so it has read some text.
#[derive(Clone, Copy)]
pub struct Parse {
    numbers: [u64; 115],
    count: u64,
    value: u64,
    within: bool,
    spoilt: bool,
}

// The state but for the numbers that are kept: it goes by value from byte to byte, and the numbers stay in their place.
#[derive(Clone, Copy)]
struct Scan {
    count: u64,
    value: u64,
    within: bool,
    spoilt: bool,
}

// The state before the first byte.
pub fn begin() -> Parse
    ensures { Reads result [] }
{
    let numbers = [0u64; NUMBERS_MAX];
    Parse {
        numbers,
        count: 0,
        value: 0,
        within: false,
        spoilt: false,
    }
}

// Whether the byte parts two numbers.
fn is_parting(b: u8) -> bool
    ensures { result ≡ is_parting b }
{
    matches!(b, b' ' | b'\n' | b'\r')
}

// Whether the byte is one of 0 to 9.
fn is_digit(b: u8) -> bool
    ensures { result ≡ is_digit b }
{
    b.is_ascii_digit()
}

// The state without its numbers, and with them again.
fn without_numbers(p: Parse) -> Scan
    ensures { p ≡ joined p.numbers result }
{
    Scan {
        count: p.count,
        value: p.value,
        within: p.within,
        spoilt: p.spoilt,
    }
}

fn with_numbers(s: Scan, numbers: [u64; 115]) -> Parse
    ensures { result ≡ joined numbers s }
{
    Parse {
        numbers,
        count: s.count,
        value: s.value,
        within: s.within,
        spoilt: s.spoilt,
    }
}

// Marks the state: no text that begins so is let through.
fn spoil(mut s: Scan) -> Scan
    ensures { result.spoilt ≡ true }
{
    s.spoilt = true;
    s
}

// Another digit of a number.
fn lengthen(mut s: Scan, b: u8) -> Scan
    requires { is_digit b ≡ true }
    ensures { s.spoilt ≡ false → (numbers : List ℕ) → Fed (joined numbers s) b (joined numbers result) }
{
    let digit = (b - b'0') as u64;
    if s.value > VALUE_TENTH {
        return spoil(s);
    }
    let shifted = s.value * 10;
    if digit > VALUE_MAX - shifted {
        return spoil(s);
    }
    s.value = shifted + digit;
    s.within = true;
    s
}

// Keeps a number as the one after the first `count`, if there is a place.
fn keep(numbers: &mut [u64], count: u64, value: u64)
    ensures { Kept numbers.old count value numbers.new }
{
    if count < numbers.len() as u64 {
        numbers[count as usize] = value;
    }
}

// Counts the number that is begun, and keeps it. The count doesn't wrap in a text shorter than 2^64 bytes.
fn close(numbers: &mut [u64], s: Scan) -> Scan
    requires { (s.within ≡ true) × (s.spoilt ≡ false) }
    ensures { Parted (joined numbers.old s) (joined numbers.new result) }
{
    keep(numbers, s.count, s.value);
    Scan {
        count: s.count.wrapping_add(1),
        value: 0,
        within: false,
        spoilt: false,
    }
}

// A parting byte, or the end of the text: a number that is begun is at its end.
fn end_number(numbers: &mut [u64], s: Scan) -> Scan
    requires { s.spoilt ≡ false }
    ensures { Parted (joined numbers.old s) (joined numbers.new result) }
{
    if s.within {
        return close(numbers, s);
    }
    s
}

// Reads a further byte.
fn feed_byte(numbers: &mut [u64], s: Scan, b: u8) -> Scan
    ensures { Fed (joined numbers.old s) b (joined numbers.new result) }
{
    if s.spoilt {
        return s;
    }
    if is_parting(b) {
        return end_number(numbers, s);
    }
    if is_digit(b) {
        return lengthen(s, b);
    }
    spoil(s)
}

// Reads a further part of the text, which in all is shorter than 2^64 bytes.
pub fn feed(p: Parse, part: &[u8]) -> Parse
    ensures { (text : List ℕ) → length text + length part.now < 2 ^ 64 → Reads p text → Reads result (text ++ part.now) }
{
    let mut numbers = p.numbers;
    let mut s = without_numbers(p);
    for b in part {
        let t = feed_byte(&mut numbers, s, *b);
        // field by field: a copy of the whole would take the unused bytes at its end through memory, ten cycles a byte
        s = Scan {
            count: t.count,
            value: t.value,
            within: t.within,
            spoilt: t.spoilt,
        };
    }
    with_numbers(s, numbers)
}

// Whether there are 19 + 16 × first numbers; the product may not fit a word, so the test divides.
fn is_right(count: u64, first: u64) -> bool
    ensures { result ≡ (count == 19 + 16 * first) }
{
    if count < NUMBERS_LEAST {
        return false;
    }
    let more = count - NUMBERS_LEAST;
    if more % NUMBERS_MORE != 0 {
        return false;
    }
    more / NUMBERS_MORE == first
}

// The text is at its end, and so is a number that is begun.
fn end_text(p: Parse) -> Parse
    ensures { AtEnd p result }
{
    if p.spoilt {
        return p;
    }
    let mut numbers = p.numbers;
    let s = end_number(&mut numbers, without_numbers(p));
    with_numbers(s, numbers)
}

// The numbers, where there are right many of them and the text isn't spoilt.
fn if_many(q: Parse, right: bool) -> Option<[u64; 115]>
    ensures { result ≡ answered q right }
{
    if q.spoilt || !right {
        return None;
    }
    Some(q.numbers)
}

// The text is at its end: its numbers, if the listing's refusal 9 lets it through.
pub fn finish(p: Parse) -> Option<[u64; 115]>
    ensures { (text : List ℕ) → length text + 1 < 2 ^ 64 → Reads p text → Ends listing_many result text }
{
    let q = end_text(p);
    let numbers = q.numbers;
    let right = is_right(q.count, numbers[0]);
    if_many(q, right)
}

// The same for the test load's refusal 9.
pub fn finish_load(p: Parse) -> Option<[u64; 115]>
    ensures { (text : List ℕ) → length text + 1 < 2 ^ 64 → Reads p text → Ends load_many result text }
{
    let q = end_text(p);
    let right = q.count == LOAD_NUMBERS;
    if_many(q, right)
}
