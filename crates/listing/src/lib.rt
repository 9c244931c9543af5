// The listing: from a text that is read to the text that is written.
#![tactic(auto)]

pub mod inner;

ghost use Rattle.listing.specs.Listing.{Listed};

use limits::Refusal;
use text_parse::Parse;

// How long a buffer has to be: no listing is longer.
pub const TEXT_MAX: usize = 131072;

// Writes what the listing program answers to the text that was read: how long its text in the buffer is. Refuses 4, a buffer that is too short.
pub fn write_listing(out: &mut [u8], p: Parse) -> Result<usize, Refusal>
    ensures { Listed p out.old out.new result }
{
    if out.len() < TEXT_MAX {
        return Err(Refusal::ShortArray);
    }
    let Some(numbers) = text_parse::finish(p) else {
        return Ok(text_print::inner::print_refusal(out, u32::from(Refusal::Text)));
    };
    if let Err(refusal) = inner::check(numbers) {
        return Ok(text_print::inner::print_refusal(out, u32::from(refusal)));
    }
    Ok(inner::list_numbers(out, numbers))
}
