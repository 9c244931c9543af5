// The bank, built into lent arrays: `try_template_decomposition` of template_decomposer.rs.
#![tactic(auto)]

pub mod inner;

ghost use Rattle.bank_parts.specs.Lent.{arrays_of, SameSlices};
ghost use Rattle.bank.specs.Build.{BankBuilt};

use bank_parts::LentBank;
use bank_unary::Setting;
use limits::Refusal;

// The lengths of the lent arrays.
#[derive(Clone, Copy)]
pub struct Sizes {
    pub lengths: usize,
    pub ops: usize,
    pub operands: usize,
    pub costs: usize,
    pub rows: usize,
    pub work: usize,
}

// Builds the bank of the setting, with the target's seeds, into the lent arrays: the count of atoms. Refuses 1, 2, 4, 5.
pub fn build_bank(
    bank: &mut LentBank<'_>,
    work: &mut [u32],
    setting: Setting,
    target: [u64; 16],
) -> Result<u32, Refusal>
    ensures built { BankBuilt setting.nv setting.w setting.points target (arrays_of bank.old) (arrays_of bank.new) work.old work.new result }
    ensures same { SameSlices bank.old bank.new }
{
    let sizes = inner::sizes_of(bank, work);
    inner::check(setting, target, sizes)?;
    let count = bank_phases::inner::build(bank, work, setting, target);
    Ok(count as u32)
}
