// The second phase of a bank build, over arrays that have been tested.
ghost use Rattle.std.specs.Prelude.{[], ◌∷◌, ◌<◌, length};
ghost use Rattle.expr.specs.declared.Token.TheVariants.{Not, Neg};
ghost use Rattle.bank_spec.specs.Push.{turn};
ghost use Rattle.bank_spec.specs.Facts.{base_of, before_turn};
ghost use Rattle.bank_parts.specs.Lent.{arrays_of, SameSlices};
ghost use Rattle.bank_unary.specs.Phases.{Asked, Holding, Phase, turned_of};

use crate::Setting;
use bank_atom::Unary;
use bank_parts::LentBank;
use row_lent::AtomSlot;

// One atom's turn: Neg and Not of its formula as it is now.
fn push_turn(
    bank: &mut LentBank<'_>,
    work: &mut [u32],
    n: usize,
    slot: AtomSlot,
    setting: Setting,
) -> usize
    requires slot_in_bounds { (slot.0 < length (base_of setting.nv setting.w setting.points)) × Asked setting.nv setting.w }
    requires holding { Holding (arrays_of bank.old) work.old n (before_turn setting.nv setting.w setting.points slot.0) }
    ensures phase { Phase (arrays_of bank.old) (arrays_of bank.new) work.new result (turn setting.w setting.points (Neg ∷ (Not ∷ [])) (before_turn setting.nv setting.w setting.points slot.0) slot.0) }
    ensures same { SameSlices bank.old bank.new }
{
    let e = bank_parts::inner::load_entry(bank, slot);
    let negated = bank_atom::inner::under_unary(e, Unary::Neg, setting.w);
    let inverted = bank_atom::inner::under_unary(e, Unary::Not, setting.w);
    let more = bank_push::inner::push(bank, work, n, negated);
    bank_push::inner::push(bank, work, more, inverted)
}

// A turn for each of the `base` atoms present, in slot order, and none for those that the turns add: the count afterwards.
pub fn push_turns(bank: &mut LentBank<'_>, work: &mut [u32], base: usize, setting: Setting) -> usize
    requires asked { Asked setting.nv setting.w }
    requires holding { Holding (arrays_of bank.old) work.old base (base_of setting.nv setting.w setting.points) }
    ensures phase { Phase (arrays_of bank.old) (arrays_of bank.new) work.new result (turned_of setting.nv setting.w setting.points) }
    ensures same { SameSlices bank.old bank.new }
{
    let mut n = base;
    for k in 0..base {
        let slot = AtomSlot(k as u32);
        n = push_turn(bank, work, n, slot, setting);
    }
    n
}
