// What the programs call with arrays that they have filled.
pub mod decimal;
pub mod formulas;
pub mod lines;

ghost use Rattle.std.specs.Prelude.{◌+◌, ◌*◌, ◌≤◌, length};
ghost use Rattle.text_print.specs.Text.{refused_line};
ghost use Rattle.text_print.specs.Printing.{Wrote, text_max, refusal_max, atom_max};
ghost use Rattle.text_print.specs.Lent.{AreStored, AreShown, ArePrinted, atoms_text};

// The formulas and costs of n atoms, in a bank's arrays.
#[derive(Clone, Copy)]
pub struct Atoms<'a> {
    pub lengths: &'a [u32],
    pub ops: &'a [u8],
    pub operands: &'a [u64],
    pub costs: &'a [u32],
    pub n: usize,
}

// The m pairs of an index, and its mark.
#[derive(Clone, Copy)]
pub struct Pairs<'a> {
    pub numbers: &'a [u32],
    pub m: usize,
    pub cut: bool,
}

// Writes the listing of atoms and pairs, and answers the place after it.
pub fn print_listing(out: &mut [u8], atoms: &Atoms<'_>, pairs: &Pairs<'_>) -> usize
    requires { AreShown atoms.now pairs.now × (text_max ≤ length out.old) }
    ensures { ArePrinted atoms.now pairs.now out.old out.new result }
{
    let head = lines::print_head(out, 0, atoms.n as u64, pairs.m as u64, pairs.cut);
    let after = print_atoms(out, head, atoms);
    lines::print_lines(out, after, pairs.numbers, pairs.m)
}

// The cost lines of n atoms, and after them their formulas.
fn print_atoms(out: &mut [u8], at: usize, atoms: &Atoms<'_>) -> usize
    requires { (at + atom_max * atoms.now.n ≤ length out.old) × (3 * atoms.now.n ≤ length atoms.now.costs.now) × AreStored atoms.now }
    ensures wrote { Wrote out.old at out.new result (atoms_text atoms.now) }
    ensures upper_bound { result ≤ at + atom_max * atoms.now.n }
{
    let after = lines::print_lines(out, at, atoms.costs, atoms.n);
    formulas::print_formulas(
        out,
        after,
        atoms.lengths,
        atoms.ops,
        atoms.operands,
        atoms.n,
    )
}

// Writes the line of a refusal, and answers the place after it. A number and no `Refusal`: each number has its line, also one that the table doesn't have.
pub fn print_refusal(out: &mut [u8], number: u32) -> usize
    requires { refusal_max ≤ length out.old }
    ensures wrote { Wrote out.old 0 out.new result (refused_line number) }
    ensures upper_bound { result ≤ refusal_max }
{
    decimal::write_named(out, 0, b"refused ", number as u64, b'\n')
}
