// The components of an interval text, listed one a line.
#![tactic(auto)]

ghost use Rattle.std.specs.Prelude.{◌≡◌};
ghost use Rattle.amount.specs.Grammar.{precision};
ghost use Rattle.buffer.specs.Written.{Written};
ghost use Rattle.place.specs.Where.{place};
ghost use Rattle.listing.specs.Lines.{listing};
ghost use Rattle.listing.specs.Read.{length_said, place_told};

mod lines;
mod names;

use place::IntervalRefusal;
use total::{Interval, IntervalParseConfig};

// Why a text is not listed: the reader's refusal, or 14, that the buffer is too short.
#[derive(Clone, Copy, Debug, PartialEq, Eq)]
pub enum ListRefusal {
    Text(IntervalRefusal),
    Buffer,
}

// A line for each component of a text that the reader of months, days and nanoseconds accepts, written into a buffer, and their length; the rest
// of the buffer is kept. Where the text is refused or the buffer too short, nothing is written.
pub fn list_interval(
    text: &[u8],
    config: IntervalParseConfig,
    buffer: &mut [u8],
) -> Result<usize, ListRefusal>
    ensures written { Written (listing precision config.default_unit text.now) (length_said result) buffer.old buffer.new }
    ensures place { place_told result ≡ place precision config.default_unit text.now }
{
    if let Err(why) = Interval::parse(text, config) {
        return Err(ListRefusal::Text(why));
    }
    // Into no room at all: the length is known before a byte is written.
    let len = lines::put_lines(text, config.default_unit, &mut []);
    if buffer.len() < len {
        return Err(ListRefusal::Buffer);
    }
    Ok(lines::put_lines(text, config.default_unit, buffer))
}
