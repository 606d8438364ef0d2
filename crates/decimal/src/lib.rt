// Decimal numbers written into a lent buffer.
#![tactic(auto)]

ghost use Rattle.buffer.specs.Buffer.{Put};
ghost use Rattle.decimal.specs.Decimal.{signed_text};

mod digits;

use buffer::put;

// A signed number's text, put into a buffer from a place on, as `buffer::put` puts bytes.
pub fn put_number(z: i64, buffer: &mut [u8], at: usize) -> usize
    ensures { Put at (signed_text z) buffer.old buffer.new result }
{
    let from = if z < 0 { put(b"-", buffer, at) } else { at };
    digits::put_digits(z.unsigned_abs(), buffer, from)
}
