// A row found in a lent bank, and a row handed back.
#![tactic(auto)]

ghost use Rattle.std.specs.Prelude.{◌≡◌, ◌*◌, ◌≤◌, length};
ghost use Rattle.limits.specs.Refusal.{says_by};
ghost use Rattle.bank_lookup.specs.Lookup.{found, slot_number, handed_back, least_from};

use limits::{ATOMS_MAX, Refusal};
use row_gates::ROW_WORDS;
use row_lent::AtomSlot;

// Finds the least slot of a lent bank whose row is `row`, or none. Refuses 2, 4, 5, 7.
pub fn find_row(
    w: u32,
    atom_count: usize,
    atom_rows: &[u64],
    row: [u64; 16],
) -> Result<Option<AtomSlot>, Refusal>
    ensures { says_by slot_number result ≡ found w atom_count atom_rows.now row }
{
    if limits::inner::bad_width(w) {
        return Err(Refusal::Width);
    }
    if atom_rows.len() / ROW_WORDS < atom_count {
        return Err(Refusal::ShortArray);
    }
    if row_lent::inner::row_reaches(row, w) {
        return Err(Refusal::LargeWord);
    }
    if ATOMS_MAX < atom_count {
        return Err(Refusal::Claim);
    }
    Ok(least_slot(atom_count, atom_rows, row))
}

// The least slot below the count whose row is `row`.
fn least_slot(count: usize, rows: &[u64], row: [u64; 16]) -> Option<AtomSlot>
    requires { (count ≤ 479) × (16 * count ≤ length rows.now) }
    ensures { slot_number result ≡ least_from rows.now row 0 count }
{
    for s in 0..count {
        if row_lent::inner::same_row(rows, s, row) {
            return Some(AtomSlot(s as u32));
        }
    }
    None
}

// The part of the row buffer that is one atom's row. Refuses 4, 7 with an empty part.
pub fn atom_row(atom_rows: &[u64], atom_count: usize, slot: AtomSlot) -> &[u64]
    ensures { result.now ≡ handed_back atom_count atom_rows.now slot.0 }
{
    let s = slot.0 as usize;
    if atom_rows.len() / ROW_WORDS < atom_count {
        return &atom_rows[0..0];
    }
    if ATOMS_MAX < atom_count {
        return &atom_rows[0..0];
    }
    if atom_count <= s {
        return &atom_rows[0..0];
    }
    &atom_rows[ROW_WORDS * s..ROW_WORDS * s + ROW_WORDS]
}
