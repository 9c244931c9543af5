// The load program's answer: from a text that is read to the lines that are written, buffer after buffer (document 02, 2.2).
#![tactic(auto)]

pub mod inner;

ghost use Rattle.std.specs.Prelude.{◌≡◌, List, ℕ, ◌+◌, ◌<◌, ◌^◌, length};
ghost use Rattle.text_parse.specs.Reading.{Reads};
ghost use Rattle.text_parse.specs.Text.{load_many, read_text};
ghost use Rattle.load_text.specs.Writing.{start_of, WroteSome};

use limits::Refusal;
use text_parse::Parse;

// How long a buffer has to be: no line is longer.
pub const LINE_MAX: usize = 1409;

// What is still to be written: the line that tells a refusal's number, or as many lines as are left, drawn from the state on. A number and no `Refusal`: each
// number has its line, also one that the table doesn't have.
#[derive(Clone, Copy)]
pub struct Load {
    number: u32,
    state: u64,
    nv: u32,
    w: u32,
    limit: usize,
    left: u64,
}

// How much stands in the buffer, and what is still to be written.
#[derive(Clone, Copy)]
pub struct LoadPart {
    pub length: usize,
    pub load: Load,
}

// The text is at its end: what the load program has to write of it.
pub fn start(p: Parse) -> Load
    ensures { (text : List ℕ) → length text + 1 < 2 ^ 64 → Reads p text → result ≡ start_of (read_text load_many text) }
{
    let Some(numbers) = text_parse::finish_load(p) else {
        return inner::bare_load(u32::from(Refusal::Text), 1);
    };
    let checked = inner::check(numbers);
    if let Err(refusal) = checked {
        return inner::bare_load(u32::from(refusal), 1);
    }
    inner::load_of(numbers)
}

// How many lines are still to be written.
pub fn left(load: Load) -> u64
    ensures { result ≡ load.left }
{
    load.left
}

// Writes lines as long as the buffer surely has room for another, and hands on the rest. Refuses 4.
pub fn write_some(out: &mut [u8], load: Load) -> Result<LoadPart, Refusal>
    ensures { WroteSome load out.old out.new result }
{
    if out.len() < LINE_MAX {
        return Err(Refusal::ShortArray);
    }
    if load.left == 0 {
        return Ok(LoadPart { length: 0, load });
    }
    if load.number != 0 {
        return Ok(inner::write_refusal(out, load.number));
    }
    Ok(inner::write_fit(out, load))
}
