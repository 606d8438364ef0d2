// The parts of an interval's text.
ghost use Rattle.std.specs.Prelude.{◌≡◌};
ghost use Rattle.buffer.specs.Buffer.{Put};
ghost use Rattle.interval_text.specs.Found.{space_at, part_at};

use buffer::put;
use decimal::put_number;

// The space before a part: none at the text's front.
pub fn space(at: usize) -> &'static [u8]
    ensures { result.now ≡ space_at at }
{
    if at == 0 { b"" } else { b" " }
}

// A part, an amount and its word, put behind those before it. One that is zero is left out.
pub fn put_part(z: i64, word: &[u8], buffer: &mut [u8], at: usize) -> usize
    ensures { Put at (part_at at z word.now) buffer.old buffer.new result }
{
    if z == 0 {
        return at;
    }
    let from = put(space(at), buffer, at);
    let end = put_number(z, buffer, from);
    put(word, buffer, end)
}
