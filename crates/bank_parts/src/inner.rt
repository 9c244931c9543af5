// What the crates above call with a slot below 479 and arrays that hold as many atoms.
ghost use Rattle.std.specs.Prelude.{◌≡◌, ◌+◌, ◌*◌, ◌≤◌, ◌<◌, length};
ghost use Rattle.arrays.specs.Parts.{part_at};
ghost use Rattle.bank_spec.specs.Encoding.{cost_numbers};
ghost use Rattle.bank_parts.specs.Parts.{texts_of, put_text, TextRoom, Room, held_cost, put_better, Loaded};
ghost use Rattle.bank_parts.specs.Lent.{arrays_of, SameSlices};

use crate::{COST_NUMBERS, LentBank};
use bank_atom::{ATOM_TOKENS, Entry, Formula};
use expr_cost::Cost;
use row_lent::AtomSlot;

// ---- written to a part that is lent

fn write_cost(part: &mut [u32], cost: Cost)
    requires { length part.old ≡ 3 }
    ensures { part.new ≡ cost_numbers cost }
{
    part[0] = cost.size;
    part[1] = cost.products;
    part[2] = cost.depth;
}

// ---- loaded by value from a slot; bytes and words by a function each, since a part of stride s is defined of numbers, and a type parameter is none

fn load_ops(ops: &[u8], slot: AtomSlot) -> [u8; 6]
    requires { 6 * slot.0 + 6 ≤ length ops.now }
    ensures { result ≡ part_at 6 ops.now slot.0 }
{
    let base = ATOM_TOKENS * slot.0 as usize;
    let mut six = [0u8; ATOM_TOKENS];
    six.copy_from_slice(&ops[base..base + ATOM_TOKENS]);
    six
}

fn load_operands(operands: &[u64], slot: AtomSlot) -> [u64; 6]
    requires { 6 * slot.0 + 6 ≤ length operands.now }
    ensures { result ≡ part_at 6 operands.now slot.0 }
{
    let base = ATOM_TOKENS * slot.0 as usize;
    let mut six = [0u64; ATOM_TOKENS];
    six.copy_from_slice(&operands[base..base + ATOM_TOKENS]);
    six
}

fn load_cost(bank: &LentBank<'_>, slot: AtomSlot) -> Cost
    requires { 3 * slot.0 + 3 ≤ length bank.now.costs.now }
    ensures { result ≡ held_cost bank.now.costs.now slot.0 }
{
    let base = COST_NUMBERS * slot.0 as usize;
    Cost {
        size: bank.costs[base],
        products: bank.costs[base + 1],
        depth: bank.costs[base + 2],
    }
}

// ---- a whole slot

// The atom at a slot.
pub fn load_entry(bank: &LentBank<'_>, slot: AtomSlot) -> Entry
    requires { (slot.0 < 479) × Room (arrays_of bank.now) }
    ensures { Loaded (arrays_of bank.now) slot.0 result }
{
    let at = slot.0 as usize;
    let len = bank.lengths[at];
    let six_ops = load_ops(bank.ops, slot);
    let six_operands = load_operands(bank.operands, slot);
    let text = Formula {
        len,
        ops: six_ops,
        operands: six_operands,
    };
    let cost = load_cost(bank, slot);
    let row = row_lent::inner::load_row(bank.rows, at);
    Entry { text, cost, row }
}

// A formula and its cost, into their slot.
pub fn write_text(bank: &mut LentBank<'_>, slot: AtomSlot, text: Formula, cost: Cost)
    requires { (slot.0 < 479) × TextRoom (texts_of (arrays_of bank.old)) }
    ensures texts { texts_of (arrays_of bank.new) ≡ put_text (texts_of (arrays_of bank.old)) slot.0 text cost }
    ensures room { TextRoom (texts_of (arrays_of bank.new)) }
    ensures rows { bank.new.rows.now ≡ bank.old.rows.now }
    ensures same { SameSlices bank.old bank.new }
{
    let at = slot.0 as usize;
    bank.lengths[at] = text.len;
    let six = ATOM_TOKENS * at;
    bank.ops[six..six + ATOM_TOKENS].copy_from_slice(&text.ops);
    bank.operands[six..six + ATOM_TOKENS].copy_from_slice(&text.operands);
    let three = COST_NUMBERS * at;
    write_cost(&mut bank.costs[three..three + COST_NUMBERS], cost);
}

// Replaces formula and cost at a slot exactly if the new cost is strictly better.
pub fn replace_if_better(bank: &mut LentBank<'_>, slot: AtomSlot, text: Formula, cost: Cost)
    requires { (slot.0 < 479) × TextRoom (texts_of (arrays_of bank.old)) }
    ensures texts { texts_of (arrays_of bank.new) ≡ put_better (texts_of (arrays_of bank.old)) slot.0 text cost }
    ensures room { TextRoom (texts_of (arrays_of bank.new)) }
    ensures rows { bank.new.rows.now ≡ bank.old.rows.now }
    ensures same { SameSlices bank.old bank.new }
{
    let held = load_cost(bank, slot);
    if cost.is_better(held) {
        write_text(bank, slot, text, cost);
    }
}
