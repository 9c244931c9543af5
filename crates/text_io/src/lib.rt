// Standard input as a text that is read, and standard output: what the programs over text_parse share.
#![tactic(auto)]

ghost use Rattle.std.specs.Prelude.{◌≡◌, ◌^◌, ◌<◌, ◌≤◌, ◌↔◌, true, IfOk, IfSome, length, take};
ghost use Rattle.std.specs.Io.KnownBytes.{Appends};
ghost use Rattle.text_parse.specs.Reading.{Reads};
ghost use Rattle.text_io.specs.Reader.{ReadsOn};

use std::io::{self, Read, Write};
use text_parse::Parse;

// One read: the reading after it, or none where the text is at its end.
fn read_some<R: Read>(reader: &mut R, p: Parse) -> io::Result<Option<Parse>>
    ensures { IfOk result (λ t. ReadsOn (R.remaining reader.old) (R.remaining reader.new) p t) }
{
    let mut buffer = [0u8; 65536];
    let n = reader.read(&mut buffer)?;
    if n == 0 {
        return Ok(None);
    }
    Ok(Some(text_parse::feed(p, &buffer[..n])))
}

// Read after read to the text's end; a read that fails is an error. A loop has to end: no run uses up 2^40 reads.
pub fn read_all<R: Read>(reader: &mut R) -> io::Result<Parse>
    ensures { IfOk result (λ p. IfSome (R.remaining reader.old) (λ text. length text < 2 ^ 64 → Reads p text)) }
{
    let mut p = text_parse::begin();
    for _ in 0..0x100_0000_0000u64 {
        let Some(q) = read_some(reader, p)? else {
            return Ok(p);
        };
        p = q;
    }
    Err(io::Error::from(io::ErrorKind::FileTooLarge))
}

// Writes the first n bytes of a buffer that is at least as long. Whether it is that long, and so all of them were written; a write that fails is an error.
pub fn write_text<W: Write>(writer: &mut W, text: &[u8], n: usize) -> io::Result<bool>
    ensures all { IfOk result (λ done. done ≡ true ↔ n ≤ length text.now) }
    ensures bytes { IfOk result (λ done. done ≡ true → Appends (W.contents writer.old) (W.contents writer.new) (take n text.now)) }
{
    if text.len() < n {
        return Ok(false);
    }
    writer.write_all(&text[..n])?;
    Ok(true)
}
