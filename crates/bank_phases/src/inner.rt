// The stock, the seeds, and the three phases one after the other, over arrays that have been tested.
ghost use Rattle.bank_spec.specs.Bank.{bank_of};
ghost use Rattle.bank_spec.specs.Facts.{base_of};
ghost use Rattle.bank_parts.specs.Lent.{arrays_of, SameSlices};
ghost use Rattle.bank_push.specs.Steps.{Ready};
ghost use Rattle.bank_unary.specs.Phases.{Asked, Holding, Phase, Fits, turned_of};

use bank_parts::LentBank;
use bank_unary::Setting;

// Pushes the stock into an empty bank: the count afterwards.
fn push_stock(bank: &mut LentBank<'_>, work: &mut [u32], setting: Setting) -> usize
    requires asked { Asked setting.nv setting.w }
    requires ready { Ready (arrays_of bank.old) work.old 0 }
    ensures phase { Phase (arrays_of bank.old) (arrays_of bank.new) work.new result (base_of setting.nv setting.w setting.points) }
    ensures same { SameSlices bank.old bank.new }
{
    let mut n: usize = 0;
    let mut at = bank_stock::inner::first();
    // no count: the place after is told by the cursor
    while !bank_stock::inner::is_done(at) {
        let e = bank_stock::inner::entry_at(at, setting.nv, setting.w, setting.points);
        at = bank_stock::inner::next(at, setting.nv);
        n = bank_push::inner::push(bank, work, n, e);
    }
    n
}

// Pushes the seeds of the target after the turns: the count afterwards.
fn push_seeds(
    bank: &mut LentBank<'_>,
    work: &mut [u32],
    turned: usize,
    setting: Setting,
    target: [u64; 16],
) -> usize
    requires asked { Asked setting.nv setting.w }
    requires holding { Holding (arrays_of bank.old) work.old turned (turned_of setting.nv setting.w setting.points) }
    ensures phase { Phase (arrays_of bank.old) (arrays_of bank.new) work.new result (bank_of setting.nv setting.w setting.points target) }
    ensures same { SameSlices bank.old bank.new }
{
    let seeds = bank_atom::inner::seeds_of(target);
    let count = seeds.count as usize;
    let mut n = turned;
    for i in 0..count {
        let e = bank_atom::inner::constant(setting.w, seeds.words[i]);
        n = bank_push::inner::push(bank, work, n, e);
    }
    n
}

// The whole build into arrays of the sizes that 01 states: the count.
pub fn build(
    bank: &mut LentBank<'_>,
    work: &mut [u32],
    setting: Setting,
    target: [u64; 16],
) -> usize
    requires asked { Asked setting.nv setting.w }
    requires fits { Fits (arrays_of bank.old) work.old }
    ensures phase { Phase (arrays_of bank.old) (arrays_of bank.new) work.new result (bank_of setting.nv setting.w setting.points target) }
    ensures same { SameSlices bank.old bank.new }
{
    bank_push::inner::start(work);
    let base = push_stock(bank, work, setting);
    let turned = bank_unary::inner::push_turns(bank, work, base, setting);
    push_seeds(bank, work, turned, setting, target)
}
