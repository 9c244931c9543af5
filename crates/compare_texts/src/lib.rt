// The cases of crates/compare/data/listings.txt and of loads.txt: a line `20 A B` or `25 A B`, then A bytes of a text, B bytes that the listing program, or the load
// program, must print of it, and a line end.
#![tactic(auto)]

use text_parse::Parse;

// Whose text a case has, by the number of its kind.
#[derive(Clone, Copy)]
enum Program {
    Listing,
    Load,
}

fn program_of(kind: u64) -> Option<Program> {
    match kind {
        20 => Some(Program::Listing),
        25 => Some(Program::Load),
        _ => None,
    }
}

// The longest text in a file, and the most that is printed.
const TEXT_MAX: u64 = 0x100_0000;

pub const PRINTED_MAX: usize = 131072;

// Where a case stands that is open.
#[derive(Clone, Copy)]
pub struct Case {
    program: Program,
    // the number of its line
    pub line: u64,
    // bytes of the text that are to come
    pub text_left: u64,
    pub parse: Parse,
    // what the program prints of the text is in the buffer
    pub written: bool,
    // bytes that must be printed, and how many of them have come
    pub expected: usize,
    pub at: usize,
    // as long as expected, and no byte differs so far
    pub same: bool,
}

// A case after a byte: still open, or at its end, the same or not.
#[derive(Clone, Copy)]
pub enum Fed {
    Open(Case),
    Ended(bool),
}

// 20 A B or 25 A B
pub fn head_same(line: &[u64]) -> bool {
    if line.len() != 3 {
        return false;
    }
    if program_of(line[0]).is_none() {
        return false;
    }
    if TEXT_MAX < line[1] {
        return false;
    }
    line[2] <= PRINTED_MAX as u64
}

// The case that line number `number` opens, if it opens one.
pub fn begin(line: &[u64], number: u64) -> Option<Case> {
    if line.len() != 3 || !head_same(line) {
        return None;
    }
    Some(Case {
        program: program_of(line[0])?,
        line: number,
        text_left: line[1],
        parse: text_parse::begin(),
        written: false,
        expected: line[2] as usize,
        at: 0,
        same: false,
    })
}

// One byte more of the text.
fn feed_text(mut c: Case, byte: u8) -> Case {
    if c.text_left == 0 {
        return c;
    }
    c.text_left -= 1;
    let part = [byte];
    c.parse = text_parse::feed(c.parse, &part);
    c
}

// The text is at its end: what the program prints of it.
fn write(out: &mut [u8], c: Case) -> Case {
    match c.program {
        Program::Listing => write_listing(out, c),
        Program::Load => write_load(out, c),
    }
}

// The load that the text asks for, whole: what is expected in the data is short enough for one buffer, and a load that isn't differs.
fn write_load(out: &mut [u8], mut c: Case) -> Case {
    c.written = true;
    c.same = match load_text::write_some(out, load_text::start(c.parse)) {
        Ok(part) => load_text::left(part.load) == 0 && part.length == c.expected,
        Err(_) => false,
    };
    c
}

// The listing that the text asks for.
fn write_listing(out: &mut [u8], mut c: Case) -> Case {
    c.written = true;
    c.same = listing::write_listing(out, c.parse) == Ok(c.expected);
    c
}

// One byte more of what must be printed, or the line end after it.
fn feed_printed(out: &[u8], mut c: Case, byte: u8) -> Fed {
    let at = c.at;
    if at == c.expected {
        return Fed::Ended(c.same && byte == b'\n');
    }
    if out.len() <= at {
        return Fed::Ended(false);
    }
    c.same = c.same && out[at] == byte;
    c.at = at + 1;
    Fed::Open(c)
}

// One byte more of an open case.
pub fn feed(out: &mut [u8], c: Case, byte: u8) -> Fed {
    if 0 < c.text_left {
        return Fed::Open(feed_text(c, byte));
    }
    if c.written {
        return feed_printed(out, c, byte);
    }
    let d = write(out, c);
    feed_printed(out, d, byte)
}
