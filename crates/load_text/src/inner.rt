// A load out of the numbers of a text, and its lines.
ghost use Rattle.std.specs.Prelude.{◌≡◌, ◌+◌, ◌≤◌, length};
ghost use Rattle.limits.specs.Refusal.{refusal_of};
ghost use Rattle.text_print.specs.Text.{formula_line, refused_line};
ghost use Rattle.text_print.specs.Printing.{Wrote};
ghost use Rattle.load_draw.specs.Draw.{formula_from};
ghost use Rattle.load_draw.specs.Steps.{Ready};
ghost use Rattle.load_text.specs.Text.{numbers_refusal};
ghost use Rattle.load_text.specs.Writing.{line_max, bare_load, load_of, further};
ghost use Rattle.load_text.specs.Steps.{WroteFit, WroteLines};

use crate::{LINE_MAX, Load, LoadPart};
use expr::MAX_TOKENS;
use limits::Refusal;

// Where seed, variable count, width, limit and n stand among the numbers.
const SEED_AT: usize = 0;

const COUNT_AT: usize = 1;

const WIDTH_AT: usize = 2;

const LIMIT_AT: usize = 3;

const MANY_AT: usize = 4;

// Whether the numbers of a text are refused.
pub fn check(numbers: [u64; 115]) -> Result<(), Refusal>
    ensures { refusal_of result ≡ numbers_refusal numbers }
{
    if limits::inner::outside(numbers[COUNT_AT], 1, limits::MAX_VARS as u64) {
        return Err(Refusal::VariableCount);
    }
    if limits::inner::outside(numbers[WIDTH_AT], 1, limits::MAX_WIDTH as u64) {
        return Err(Refusal::Width);
    }
    if limits::inner::outside(numbers[LIMIT_AT], 1, MAX_TOKENS as u64) {
        return Err(Refusal::Formula);
    }
    Ok(())
}

// The load that the numbers ask for.
pub fn load_of(numbers: [u64; 115]) -> Load
    requires { numbers_refusal numbers ≡ 0 }
    ensures { result ≡ load_of numbers }
{
    Load {
        number: 0,
        state: numbers[SEED_AT],
        nv: numbers[COUNT_AT] as u32,
        w: numbers[WIDTH_AT] as u32,
        limit: numbers[LIMIT_AT] as usize,
        left: numbers[MANY_AT],
    }
}

// A load of no formula: a number and the line that tells it, or nothing.
pub fn bare_load(number: u32, left: u64) -> Load
    ensures { result ≡ bare_load number left }
{
    Load {
        number,
        state: 0,
        nv: 1,
        w: 1,
        limit: 1,
        left,
    }
}

// The line of a refusal, after which nothing is left.
pub fn write_refusal(out: &mut [u8], number: u32) -> LoadPart
    requires { line_max ≤ length out.old }
    ensures wrote { Wrote out.old 0 out.new result.length (refused_line number) }
    ensures load { result.load ≡ bare_load 0 0 }
{
    let length = text_print::inner::print_refusal(out, number);
    LoadPart {
        length,
        load: bare_load(0, 0),
    }
}

// The lines of a load; of one that may not be drawn nothing.
pub fn write_fit(out: &mut [u8], load: Load) -> LoadPart
    requires { line_max ≤ length out.old }
    ensures { WroteFit load out.old out.new result }
{
    let mut ops = [0u8; MAX_TOKENS];
    let mut operands = [0u64; MAX_TOKENS];
    if let Err(_) = load_draw::inner::check(&ops, &operands, load.nv, load.w, load.limit) {
        return LoadPart {
            length: 0,
            load: bare_load(0, 0),
        };
    }
    write_lines(out, &mut ops, &mut operands, load)
}

// Line after line, as long as one is left and the buffer has room for the longest.
fn write_lines(out: &mut [u8], ops: &mut [u8], operands: &mut [u64], load: Load) -> LoadPart
    requires { (line_max ≤ length out.old) × Ready load.nv load.w load.limit ops.old operands.old }
    ensures { WroteLines load out.old out.new result }
{
    let last = out.len() - LINE_MAX;
    let mut state = load.state;
    let mut left = load.left;
    let mut p: usize = 0;
    // no count: a step is as long as its line
    while p <= last {
        if left == 0 {
            return lines_part(load, left, state, p);
        }
        let x = write_line(out, ops, operands, p, state, load);
        p = x.next;
        state = x.state;
        left -= 1;
    }
    lines_part(load, left, state, p)
}

// The answer where p bytes are written and so many lines are left.
fn lines_part(load: Load, left: u64, state: u64, p: usize) -> LoadPart
    ensures { result ≡ record { length = p; load = further load left state } }
{
    LoadPart {
        length: p,
        load: Load {
            number: 0,
            state,
            nv: load.nv,
            w: load.w,
            limit: load.limit,
            left,
        },
    }
}

// The place after a line, and the state after its formula.
#[derive(Clone, Copy)]
struct Line {
    next: usize,
    state: u64,
}

// The next formula of the load as a line from place `at` on.
fn write_line(
    out: &mut [u8],
    ops: &mut [u8],
    operands: &mut [u64],
    at: usize,
    state: u64,
    load: Load,
) -> Line
    requires { (at + line_max ≤ length out.old) × Ready load.nv load.w load.limit ops.old operands.old }
    ensures wrote { Wrote out.old at out.new result.next (formula_line (formula_from load.nv load.w load.limit state).form) }
    ensures next_bound { (result.next ≤ at + line_max) × (result.state ≡ (formula_from load.nv load.w load.limit state).state) }
{
    let d = load_draw::inner::draw(ops, operands, state, load.nv, load.w, load.limit);
    let next = text_print::inner::formulas::print_formula(out, at, ops, operands, d.count);
    Line {
        next,
        state: d.state,
    }
}
