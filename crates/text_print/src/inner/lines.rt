// The head line, and lines of three numbers: costs and pairs. Each function answers the place after what it wrote.
ghost use Rattle.std.specs.Prelude.{cond, ◌+◌, ◌*◌, ◌≤◌, length};
ghost use Rattle.text_print.specs.Text.{head_line, cut_word, whole_word};
ghost use Rattle.text_print.specs.Printing.{Wrote, head_max, mark_max, numbers_max, lines_text, numbers_at};

use crate::inner::decimal;

// `atoms N pairs M`, and the mark.
pub fn print_head(out: &mut [u8], at: usize, n: u64, m: u64, cut: bool) -> usize
    requires { at + head_max ≤ length out.old }
    ensures wrote { Wrote out.old at out.new result (head_line n m cut) }
    ensures upper_bound { result ≤ at + head_max }
{
    let p = decimal::write_named(out, at, b"atoms ", n, b' ');
    let q = decimal::write_named(out, p, b"pairs ", m, b' ');
    print_mark(out, q, cut)
}

// Whether the index is cut, and the line's end.
fn print_mark(out: &mut [u8], at: usize, cut: bool) -> usize
    requires { at + mark_max ≤ length out.old }
    ensures wrote { Wrote out.old at out.new result (cond cut cut_word whole_word) }
    ensures upper_bound { result ≤ at + mark_max }
{
    if cut {
        return decimal::put(out, at, b"cut\n");
    }
    decimal::put(out, at, b"whole\n")
}

// The first n triples of numbers, a line each.
pub fn print_lines(out: &mut [u8], at: usize, numbers: &[u32], n: usize) -> usize
    requires { (at + numbers_max * n ≤ length out.old) × (3 * n ≤ length numbers.now) }
    ensures wrote { Wrote out.old at out.new result (lines_text (numbers_at numbers.now) n) }
    ensures upper_bound { result ≤ at + numbers_max * n }
{
    let mut p = at;
    for k in 0..n {
        p = print_line(out, p, numbers, k);
    }
    p
}

// Triple k.
fn print_line(out: &mut [u8], at: usize, numbers: &[u32], k: usize) -> usize
    requires { (at + numbers_max ≤ length out.old) × (3 * k + 3 ≤ length numbers.now) }
    ensures wrote { Wrote out.old at out.new result (numbers_at numbers.now k) }
    ensures upper_bound { result ≤ at + numbers_max }
{
    let x = numbers[3 * k] as u64;
    let y = numbers[3 * k + 1] as u64;
    let z = numbers[3 * k + 2] as u64;
    let p = decimal::write_field(out, at, x, b' ');
    let q = decimal::write_field(out, p, y, b' ');
    decimal::write_field(out, q, z, b'\n')
}
