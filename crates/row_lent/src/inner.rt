// What the crates above call with a slot, a part or a width that they have tested.
ghost use Rattle.std.specs.Prelude.{◌≡◌, ◌+◌, ◌*◌, ◌^◌, ◌≤◌, length};
ghost use Rattle.arrays.specs.Parts.{part_at, put_part};
ghost use Rattle.row_gates.specs.Gates.{same_row};
ghost use Rattle.row_lent.specs.Range.{reaches};

use row_gates::ROW_WORDS;

// Row `slot` of lent rows.
pub fn load_row(rows: &[u64], slot: usize) -> [u64; 16]
    requires { 16 * slot + 16 ≤ length rows.now }
    ensures { result ≡ part_at 16 rows.now slot }
{
    let base = ROW_WORDS * slot;
    let mut row = [0u64; ROW_WORDS];
    // a loop: of a row that `copy_from_slice` made LLVM makes a copy, also where it is read alone
    for i in 0..ROW_WORDS {
        row[i] = rows[base + i];
    }
    row
}

// The row writer: a slot's own sixteen words, `&mut rows[16 * slot..16 * slot + 16]`, are lent to it.
pub fn write_row(part: &mut [u64], row: [u64; 16])
    requires { length part.old ≡ 16 }
    ensures { part.new ≡ row }
{
    part.copy_from_slice(&row);
}

// The row at `slot` of lent rows: its own sixteen words are lent to the row writer.
pub fn put_row(rows: &mut [u64], slot: usize, row: [u64; 16])
    requires { 16 * slot + 16 ≤ length rows.old }
    ensures { rows.new ≡ put_part 16 rows.old slot row }
{
    let base = ROW_WORDS * slot;
    write_row(&mut rows[base..base + ROW_WORDS], row);
}

// Whether row `slot` of lent rows is `row`, in all sixteen words. Stops at the first that differs; `==` of the two slices takes seven times as long to find a row.
pub fn same_row(rows: &[u64], slot: usize, row: [u64; 16]) -> bool
    requires { 16 * slot + 16 ≤ length rows.now }
    ensures { result ≡ same_row (part_at 16 rows.now slot) row }
{
    let base = ROW_WORDS * slot;
    for word in 0..ROW_WORDS {
        if rows[base + word] != row[word] {
            return false;
        }
    }
    true
}

// Whether one of the row's words is not below 2^w.
pub fn row_reaches(row: [u64; 16], w: u32) -> bool
    requires { w ≤ 64 }
    ensures { result ≡ reaches (2 ^ w) row }
{
    let mask = arith::bitmask(w);
    for j in 0..ROW_WORDS {
        if mask < row[j] {
            return true;
        }
    }
    false
}
