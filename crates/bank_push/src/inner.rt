// What the crates above call with arrays long enough for 479 atoms, and a work area that holds the map of the first n rows; n is how many atoms the bank has.
ghost use Rattle.std.specs.Prelude.{◌≡◌, ◌*◌, ◌≤◌, ◌<◌, length};
ghost use Rattle.row_map.specs.Map.{home_of, Searchable, FindOk};
ghost use Rattle.bank_parts.specs.Lent.{arrays_of, SameSlices};
ghost use Rattle.bank_push.specs.Steps.{Ready, Appended, Pushed, Started};

use crate::MAP_BITS;
use bank_atom::Entry;
use bank_parts::LentBank;
use row_gates::ROW_WORDS;
use row_lent::AtomSlot;
use row_map::Lookup;

// Empties the map, whatever the work area held.
pub fn start(work: &mut [u32])
    requires { 4 * 479 ≤ length work.old }
    ensures { Started work.new }
{
    row_map::inner::clear(work, MAP_BITS);
}

// Finds the newest of the n atoms whose row is `row`.
fn find(bank: &LentBank<'_>, work: &[u32], n: usize, row: [u64; 16]) -> Lookup
    requires { Searchable work.now 10 bank.now.rows.now n }
    ensures { FindOk 10 bank.now.rows.now n row result }
{
    row_map::inner::find(work, MAP_BITS, bank.rows, n, row)
}

// A new atom after the last, its row taken into its chain of the map.
fn append(bank: &mut LentBank<'_>, work: &mut [u32], n: usize, e: Entry, home: u32)
    requires n_bound { (n < 479) × (home ≡ home_of 10 e.row) }
    requires ready { Ready (arrays_of bank.old) work.old n }
    ensures appended { Appended (arrays_of bank.old) (arrays_of bank.new) work.new n e }
    ensures same { SameSlices bank.old bank.new }
{
    let text = e.text;
    let cost = e.cost;
    let last = n as u32;
    let slot = AtomSlot(last);
    bank_parts::inner::write_text(bank, slot, text, cost);
    let at = ROW_WORDS * n;
    let row = e.row;
    row_lent::inner::write_row(&mut bank.rows[at..at + ROW_WORDS], row);
    row_map::inner::insert(work, MAP_BITS, n, home);
}

// Pushes an atom into the bank of n: the count afterwards.
pub fn push(bank: &mut LentBank<'_>, work: &mut [u32], n: usize, e: Entry) -> usize
    requires n_bound { n < 479 }
    requires ready { Ready (arrays_of bank.old) work.old n }
    ensures pushed { Pushed (arrays_of bank.old) (arrays_of bank.new) work.new n e result }
    ensures same { SameSlices bank.old bank.new }
{
    let row = e.row;
    let found = find(bank, work, n, row);
    match found {
        Lookup::At(s) => {
            let text = e.text;
            let cost = e.cost;
            bank_parts::inner::replace_if_better(bank, AtomSlot(s), text, cost);
            n
        }
        Lookup::Free(home) => {
            append(bank, work, n, e, home);
            n + 1
        }
    }
}
