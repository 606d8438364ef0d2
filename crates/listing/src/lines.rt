// The lines of components.
ghost use Rattle.std.specs.Prelude.{◌≡◌, List, Some};
ghost use Rattle.amount.specs.Grammar.{precision};
ghost use Rattle.amount.specs.Read.{value_of};
ghost use Rattle.buffer.specs.Buffer.{Put};
ghost use Rattle.component.specs.Grammar.{Component};
ghost use Rattle.component.specs.Division.{divide};
ghost use Rattle.listing.specs.Lines.{line, lines};

use crate::names;
use amount::IntervalAmount;
use buffer::put;
use component::Piece;
use decimal::put_number;
use unit::IntervalUnit;

// The line of an amount of a unit, at most 66 bytes, put into a buffer from a place on, as `buffer::put` puts bytes.
pub fn put_line(amount: IntervalAmount, unit: IntervalUnit, buffer: &mut [u8], at: usize) -> usize
    ensures { Put at (line unit (value_of amount)) buffer.old buffer.new result }
{
    let at = put(b"unit=", buffer, at);
    let at = put(names::name(unit), buffer, at);
    let at = put(b" whole=", buffer, at);
    let at = put_number(amount.integer, buffer, at);
    let at = put(b" frac=", buffer, at);
    let at = put_number(amount.frac, buffer, at);
    put(b"\n", buffer, at)
}

// The lines of a text's components, put into a buffer from its front on. The text is read again, as document 01 has it: "components are read off
// twice".
pub fn put_lines(text: &[u8], default_unit: IntervalUnit, buffer: &mut [u8]) -> usize
    ensures { (d : List Component) → divide precision text.now ≡ Some d → Put 0 (lines precision default_unit d) buffer.old buffer.new result }
{
    let mut place: usize = 0;
    let mut at: usize = 0;
    loop {
        let taken = component::component(text, place);
        place = taken.at;
        let piece = match taken.piece {
            Ok(piece) => piece,
            // Never in a text that is accepted.
            Err(_) => return at,
        };
        match piece {
            Piece::Last(amount, word) => {
                return put_line(amount, word.unwrap_or(default_unit), buffer, at);
            }
            Piece::More(amount, unit, _) => at = put_line(amount, unit, buffer, at),
        }
    }
}
