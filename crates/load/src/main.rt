// The load program: reads seed, variable count, width, limit and n from standard input, and writes the n formulas of that load, a line each, or its refusal.
#![tactic(auto)]

ghost use Rattle.std.specs.Prelude.{◌+◌, ◌^◌, ◌<◌, length, OnOk, IfSome};
ghost use Rattle.std.specs.Io.KnownBytes.{Appends};
ghost use Rattle.load_text.specs.Text.{load_text};
ghost use Rattle.load_text.specs.Writing.{owed};

use load_text::Load;
use std::io::{self, Read, Write};

// Buffer after buffer, until nothing is left; a write that fails is an error.
fn write_load<W: Write>(writer: &mut W, load: Load) -> io::Result<()>
    ensures { OnOk result (Appends (W.contents writer.old) (W.contents writer.new) (owed load)) }
{
    let mut text = [0u8; 65536];
    let mut l = load;
    // no count: a buffer takes as many lines as fit, so how many are left is told by the load
    while 0 < load_text::left(l) {
        let Ok(part) = load_text::write_some(&mut text, l) else {
            return Ok(());
        };
        if !text_io::write_text(writer, &text, part.length)? {
            return Ok(());
        }
        l = part.load;
    }
    Ok(())
}

// The program over any reader and writer: what is written answers the text that is read.
fn run<R: Read, W: Write>(reader: &mut R, writer: &mut W) -> io::Result<()>
    ensures { OnOk result (IfSome (R.remaining reader.old) (λ text. length text + 1 < 2 ^ 64 → Appends (W.contents writer.old) (W.contents writer.new) (load_text text))) }
{
    let p = text_io::read_all(reader)?;
    write_load(writer, load_text::start(p))
}

// A read or a write that fails is an error; after a read that fails nothing is drawn.
fn main(rt: HostRuntime) -> io::Result<()> {
    run(&mut rt.stdin(), &mut rt.stdout())
}
