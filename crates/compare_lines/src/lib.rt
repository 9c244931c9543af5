// What the kinds of lines have in common: numbers out of a line, digests of arrays, and places that a call must leave alone.
#![tactic(auto)]

pub mod inner;

ghost use Rattle.std.specs.Prelude.{◌≤◌};

use limits::Refusal;

// What the lent arrays hold before a call. Places beyond the counts must hold it after.
pub const OLD_BYTE: u8 = 0xa5;

pub const OLD_HALF: u32 = 0xa5a5_a5a5;

pub const OLD_WORD: u64 = 0xa5a5_a5a5_5a5a_5a5a;

// What a digest of no numbers is.
const DIGEST: u64 = 0xcbf2_9ce4_8422_2325;

// A number of the data as an opcode; the data holds none above 255.
pub fn opcode(x: u64) -> u8 {
    x.min(255) as u8
}

// A width or a count as a u32; the data holds none that is larger.
pub fn narrow(x: u64) -> u32 {
    x.min(0xffff_ffff) as u32
}

// A length of the data that a slice can have.
pub fn least(x: u64, most: usize) -> usize
    ensures { result ≤ most }
{
    most.min(x as usize)
}

// The first elements of a slice, as many as the data says, or all.
pub fn first<T>(s: &[T], n: u64) -> &[T] {
    let end = least(n, s.len());
    &s[..end]
}

pub fn first_mut<T>(s: &mut [T], n: u64) -> &mut [T] {
    let end = least(n, s.len());
    &mut s[..end]
}

// The element at a place, 0 past the end.
pub fn number_at<T: Copy + Into<u64>>(s: &[T], at: usize) -> u64 {
    if at < s.len() { s[at].into() } else { 0 }
}

// The number of a call's refusal, 0 for none.
pub fn refusal_of<T: Copy>(r: Result<T, Refusal>) -> u64 {
    match r {
        Ok(_) => 0,
        Err(refusal) => u32::from(refusal) as u64,
    }
}

// One number more of a digest. By its own words, as a fingerprint's: what checks the fingerprint calls none of it.
fn mix(h: u64, v: u64) -> u64 {
    let x = arith::wrapping_mul(h ^ v, 0x100_0000_01b3);
    x ^ (x >> 29)
}

// The digest of the first n elements.
pub fn digest<T: Copy + Into<u64>>(s: &[T], n: usize) -> u64 {
    let mut h = DIGEST;
    for i in 0..n {
        h = mix(h, number_at(s, i));
    }
    h
}

// Whether the elements from a place on are as they were.
pub fn kept<T: Copy + PartialEq>(s: &[T], from: usize, old: T) -> bool {
    s.iter().skip(from).all(|x| *x == old)
}

// The order list of rows of zeros: 0, 1, 2 and so on; the first two exchanged if `swap` is 1.
pub fn zero_order(swap: u64) -> [u32; 8000] {
    let mut order: [u32; 8000] = std::array::from_fn(|i| i as u32);
    if swap == 1 {
        order.swap(0, 1);
    }
    order
}
