// The two maps in the work area: that of the bank's rows in its first words, and that of the pairs' rows after it.
ghost use Rattle.std.specs.Prelude.{◌≡◌, ◌+◌, ◌*◌, ◌^◌, ◌≤◌, ◌<◌, length, take, drop};
ghost use Rattle.limits.specs.Limits.{atoms_max, pairs_max};
ghost use Rattle.arrays.specs.Parts.{part_at};
ghost use Rattle.row_fingerprint.specs.Fingerprint.{fingerprint_of};
ghost use Rattle.row_map.specs.Map.{home_of, Held, Searchable, FindOk, Room};
ghost use Rattle.index_spec.specs.Index.{rows_of, holds};
ghost use Rattle.index_maps.specs.Area.{bank_bits, bank_area, head_room, Prepared, InsertedPair};

use row_lent::PairSlot;
use row_map::Lookup;

// What a build is of: the width, how many atoms and at most how many pairs, and the bits of the pairs' map.
#[derive(Clone, Copy)]
pub struct Job {
    pub w: u32,
    pub count: usize,
    pub limit: usize,
    pub bits: u32,
}

// The bank's map: 2^10 heads, and a link for each of 479 atoms.
const BANK_BITS: u32 = 10;

// Its words: 2^10 + 479.
const BANK_AREA: usize = 1503;

// What 4 × (L + 479) words leave for the heads of the pairs' map, where L is 0.
const HEAD_ROOM: usize = 413;

const LEAST_HEADS: usize = 256;

// How many heads the pairs' map may have: what there is room for, but not many more than trials, since all are emptied.
fn most_heads(limit: usize, count: usize) -> usize
    requires { (limit ≤ pairs_max) × (count ≤ atoms_max) }
    ensures { result ≤ head_room limit }
{
    let room = 3 * limit + HEAD_ROOM;
    let wanted = 6 * count * count;
    wanted.min(room)
}

// The bits of the pairs' map, which has the least number of heads or more.
pub fn map_bits(limit: usize, count: usize) -> u32
    requires { (limit ≤ pairs_max) × (count ≤ atoms_max) }
    ensures { (result ≤ 31) × (2 ^ result ≤ head_room limit) }
{
    most_heads(limit, count).max(LEAST_HEADS).ilog2()
}

// The chain of atom i in the bank's map.
fn bank_home(atoms: &[u64], i: usize) -> u32
    requires { 16 * i + 16 ≤ length atoms.now }
    ensures { (result ≡ home_of bank_bits (part_at 16 atoms.now i)) × (result < 2 ^ bank_bits) }
{
    let row = row_lent::inner::load_row(atoms, i);
    arith::reduce(row_fingerprint::fingerprint(row), BANK_BITS) as u32
}

// The map of the bank's rows. Rows may be equal: only whether a row is there matters.
fn fill_bank_map(map: &mut [u32], atoms: &[u64], count: usize)
    requires { (length map.old ≡ bank_area) × (count ≤ atoms_max) × (16 * count ≤ length atoms.now) }
    ensures { Held map.new atoms.now bank_bits count }
{
    row_map::inner::clear(map, BANK_BITS);
    for i in 0..count {
        let home = bank_home(atoms, i);
        row_map::inner::insert(map, BANK_BITS, i, home);
    }
}

// Both maps before the first trial.
pub fn prepare(work: &mut [u32], atoms: &[u64], job: Job)
    requires { (job.count ≤ atoms_max) × (16 * job.count ≤ length atoms.now) × (job.bits ≤ 31) × (bank_area + 2 ^ job.bits ≤ length work.old) }
    ensures { Prepared job atoms.now work.new }
{
    fill_bank_map(&mut work[0..BANK_AREA], atoms, job.count);
    row_map::inner::clear(&mut work[BANK_AREA..], job.bits);
}

// Whether the bank holds a row.
pub fn in_bank(work: &[u32], atoms: &[u64], count: usize, row: [u64; 16], print: u64) -> bool
    requires bank_area_in_bounds { (bank_area ≤ length work.now) × Searchable (take bank_area work.now) bank_bits atoms.now count }
    requires print_value { print ≡ fingerprint_of row }
    ensures { result ≡ holds (rows_of count atoms.now) row }
{
    let map = &work[0..BANK_AREA];
    let found = row_map::inner::find_by(map, BANK_BITS, atoms, count, row, print);
    matches!(found, Lookup::At(_))
}

// The pair that has a row, or the chain for it.
pub fn find_pair(
    work: &[u32],
    bits: u32,
    listed: &[u64],
    n: usize,
    row: [u64; 16],
    print: u64,
) -> Lookup
    requires bank_area_in_bounds { (bank_area ≤ length work.now) × Searchable (drop bank_area work.now) bits listed.now n }
    requires print_value { print ≡ fingerprint_of row }
    ensures { FindOk bits listed.now n row result }
{
    row_map::inner::find_by(&work[BANK_AREA..], bits, listed, n, row, print)
}

// Takes pair n into its chain.
pub fn insert_pair(work: &mut [u32], bits: u32, n: PairSlot, home: u32)
    requires { (bank_area ≤ length work.old) × Room (drop bank_area work.old) bits n.0 home }
    ensures { InsertedPair work.old work.new bits n.0 home }
{
    row_map::inner::insert(&mut work[BANK_AREA..], bits, n.0 as usize, home);
}
