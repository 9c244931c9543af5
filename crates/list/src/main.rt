// The listing program: reads a text from standard input to its end, and writes the listing of the bank and the index that it asks for, or its refusal.
#![tactic(auto)]

ghost use Rattle.std.specs.Prelude.{◌+◌, ◌^◌, ◌<◌, length, OnOk, IfSome};
ghost use Rattle.std.specs.Io.KnownBytes.{Appends};
ghost use Rattle.listing.specs.Listing.{listing};

use std::io::{self, Read, Write};

// The program over any reader and writer: what is written is the listing of the text that is read. The buffer is as long as refusal 4 asks.
fn run<R: Read, W: Write>(reader: &mut R, writer: &mut W) -> io::Result<()>
    ensures { OnOk result (IfSome (R.remaining reader.old) (λ text. length text + 1 < 2 ^ 64 → Appends (W.contents writer.old) (W.contents writer.new) (listing text))) }
{
    let p = text_io::read_all(reader)?;
    let mut text = [0u8; 131072];
    match listing::write_listing(&mut text, p) {
        Ok(n) => {
            text_io::write_text(writer, &text, n)?;
            Ok(())
        }
        Err(_) => Ok(()),
    }
}

// A read or a write that fails is an error; after a read that fails nothing is listed.
fn main(rt: HostRuntime) -> io::Result<()> {
    run(&mut rt.stdin(), &mut rt.stdout())
}
