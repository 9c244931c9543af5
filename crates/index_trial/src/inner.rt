// One trial: the gate of two atoms, and what becomes of its row.
ghost use Rattle.std.specs.Prelude.{◌≡◌, [], ◌∷◌, ◌+◌, ◌*◌, ◌≤◌, ◌<◌, length};
ghost use Rattle.arrays.specs.Parts.{part_at, put_part};
ghost use Rattle.row_fingerprint.specs.Fingerprint.{fingerprint_of};
ghost use Rattle.row_map.specs.Map.{FindOk};
ghost use Rattle.row_gates.specs.Gates.{gate_row};
ghost use Rattle.index_spec.specs.Index.{rows_of, holds};
ghost use Rattle.index_trial.specs.Steps.{IsReady, HasBank, Tried, SameLent, Listable, Listed, words_of, trial_of};

use index_maps::inner::Job;
use index_spec::PAIR_WORDS;
use row_gates::{Gate, ROW_WORDS};
use row_lent::{AtomSlot, PairSlot};
use row_map::Lookup;

// How many pairs are listed, and whether a new row ended the build. `BuiltIndex` of the crate index is what a caller gets of it: here the number is
// the place of the next pair, a usize.
#[derive(Clone, Copy)]
pub struct Tally {
    pub pairs: usize,
    pub cut: bool,
}

// What is tried: a gate of two atoms.
#[derive(Clone, Copy)]
pub struct Trial {
    pub gate: Gate,
    pub b: AtomSlot,
    pub c: AtomSlot,
}

// A build, and what is lent to it: the work area with the maps, the pairs and their rows, and the atoms' rows.
#[derive(Drop)]
pub struct Build<'a> {
    pub job: Job,
    pub work: &'a mut [u32],
    pub pairs: &'a mut [u32],
    pub listed: &'a mut [u64],
    pub atoms: &'a [u64],
}

// The gate of rows b and c, straight from the lent rows: so LLVM makes vectors of it.
fn gate_of_rows(atoms: &[u64], t: Trial, w: u32) -> [u64; 16]
    requires { (16 * t.b.0 + 16 ≤ length atoms.now) × (16 * t.c.0 + 16 ≤ length atoms.now) × (w ≤ 64) }
    ensures { result ≡ gate_row t.gate w (part_at 16 atoms.now t.b.0) (part_at 16 atoms.now t.c.0) }
{
    let at_b = ROW_WORDS * t.b.0 as usize;
    let at_c = ROW_WORDS * t.c.0 as usize;
    let mut row = [0u64; ROW_WORDS];
    for i in 0..ROW_WORDS {
        row[i] = row_gates::inner::gate_apply_lane(atoms[at_b + i], atoms[at_c + i], t.gate, w);
    }
    row
}

// Row n of the pairs' rows.
fn put_row(listed: &mut [u64], n: PairSlot, row: [u64; 16])
    requires { 16 * n.0 + 16 ≤ length listed.old }
    ensures { listed.new ≡ put_part 16 listed.old n.0 row }
{
    row_lent::inner::put_row(listed, n.0 as usize, row);
}

// A pair's three words.
fn write_pair(part: &mut [u32], t: Trial)
    requires { length part.old ≡ 3 }
    ensures { part.new ≡ words_of t }
{
    part[0] = u32::from(t.gate);
    part[1] = t.b.0;
    part[2] = t.c.0;
}

// Pair n: gate, b and c.
fn put_pair(pairs: &mut [u32], n: PairSlot, t: Trial)
    requires { 3 * n.0 + 3 ≤ length pairs.old }
    ensures { pairs.new ≡ put_part 3 pairs.old n.0 (words_of t) }
{
    let at = PAIR_WORDS * n.0 as usize;
    let end = at + PAIR_WORDS;
    write_pair(&mut pairs[at..end], t);
}

impl<'a> Build<'a> {
    // Whether the bank holds a row.
    fn in_bank(&self, row: [u64; 16], print: u64) -> bool
        requires bank_area_in_bounds { HasBank self.now }
        requires print_value { print ≡ fingerprint_of row }
        ensures { result ≡ holds (rows_of self.now.job.count self.now.atoms.now) row }
    {
        index_maps::inner::in_bank(self.work, self.atoms, self.job.count, row, print)
    }

    // The pair that has a row, or the chain for it.
    fn find_pair(&self, n: usize, row: [u64; 16], print: u64) -> Lookup
        requires ready { IsReady self.now n }
        requires print_value { print ≡ fingerprint_of row }
        ensures { FindOk self.now.job.bits self.now.listed.now n row result }
    {
        index_maps::inner::find_pair(self.work, self.job.bits, self.listed, n, row, print)
    }

    // A new row as pair n.
    fn list_pair(&mut self, n: PairSlot, home: u32, t: Trial, row: [u64; 16])
        requires { IsReady self.old n.0 × Listable self.old.job n.0 home row t.b.0 t.c.0 }
        ensures listed { Listed self.old self.new n.0 t row }
        ensures same { SameLent self.old self.new }
    {
        put_row(self.listed, n, row);
        put_pair(self.pairs, n, t);
        index_maps::inner::insert_pair(self.work, self.job.bits, n, home);
    }

    // One trial: a row that bank or index holds is skipped; a new one is listed, or ends the build.
    pub fn try_pair(&mut self, n: usize, t: Trial) -> Tally
        requires { IsReady self.old n × (t.b.0 < self.old.job.count) × (t.c.0 < self.old.job.count) }
        ensures tried { Tried self.old self.new n result (trial_of t ∷ []) }
        ensures same { SameLent self.old self.new }
    {
        let job = self.job;
        let row = gate_of_rows(self.atoms, t, job.w);
        let print = row_fingerprint::fingerprint(row);
        if self.in_bank(row, print) {
            return Tally {
                pairs: n,
                cut: false, // the bank holds the row
            };
        }
        match self.find_pair(n, row, print) {
            Lookup::At(_) => Tally {
                pairs: n,
                cut: false, // a pair has the row
            },
            Lookup::Free(home) => {
                if n >= job.limit {
                    return Tally {
                        pairs: n,
                        cut: true, // the row is new, and there is no room
                    };
                }
                let slot = PairSlot(n as u32);
                self.list_pair(slot, home, t, row);
                Tally {
                    pairs: n + 1,
                    cut: false, // the row is new, and there was room
                }
            }
        }
    }
}
