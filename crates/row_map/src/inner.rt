// What the bank and the index call. A work area has 2^bits heads, and then a link for each slot. A chain is the slots whose
// rows have one home, the lowest bits of their fingerprints: its head is the newest, and each link leads to the next older one. An entry
// is a slot plus one, and 0 where the chain ends.
ghost use Rattle.std.specs.Prelude.{◌≡◌, ◌%◌, ◌^◌, ◌≤◌, ◌<◌, length};
ghost use Rattle.row_fingerprint.specs.Fingerprint.{fingerprint_of};
ghost use Rattle.row_map.specs.Map.{cleared, Searchable, FindOk, Room, Inserted};

use crate::Lookup;

// The entry that ends a chain.
const NO_SLOT: u32 = 0;

// How many chains there are.
fn heads(bits: u32) -> usize
    requires { bits ≤ 31 }
    ensures { result ≡ 2 ^ bits }
{
    1 << bits
}

// The chain of a row, by its fingerprint.
fn home_of(print: u64, bits: u32) -> u32
    requires { bits ≤ 31 }
    ensures { (result ≡ print % 2 ^ bits) × (result < 2 ^ bits) }
{
    arith::reduce(print, bits) as u32
}

// Empties the map, whatever the area held.
pub fn clear(work: &mut [u32], bits: u32)
    requires { (bits ≤ 31) × (2 ^ bits ≤ length work.old) }
    ensures { work.new ≡ cleared bits work.old }
{
    work[..heads(bits)].fill(NO_SLOT);
}

// Finds the newest of the first n slots whose row is `row`.
pub fn find(work: &[u32], bits: u32, rows: &[u64], n: usize, row: [u64; 16]) -> Lookup
    requires { Searchable work.now bits rows.now n }
    ensures { FindOk bits rows.now n row result }
{
    let print = row_fingerprint::fingerprint(row);
    find_by(work, bits, rows, n, row, print)
}

// The same for a caller that has the row's fingerprint: two maps are searched with one.
pub fn find_by(
    work: &[u32],
    bits: u32,
    rows: &[u64],
    n: usize,
    row: [u64; 16],
    print: u64,
) -> Lookup
    requires searchable { Searchable work.now bits rows.now n }
    requires print_value { print ≡ fingerprint_of row }
    ensures { FindOk bits rows.now n row result }
{
    let links = heads(bits);
    let home = home_of(print, bits);
    let mut entry = work[home as usize];
    // no count: the chain tells the next slot
    while entry != NO_SLOT {
        let slot = entry - 1;
        if row_lent::inner::same_row(rows, slot as usize, row) {
            return Lookup::At(slot);
        }
        entry = work[links + slot as usize];
    }
    Lookup::Free(home)
}

// Takes slot n into the chain `home`, as its newest.
pub fn insert(work: &mut [u32], bits: u32, n: usize, home: u32)
    requires { Room work.old bits n home }
    ensures { Inserted work.old work.new bits n home }
{
    let link = heads(bits) + n;
    let head = home as usize;
    work[link] = work[head];
    work[head] = (n + 1) as u32;
}
