// A text's components, put one after another: an amount turn hands over to a unit turn and back until no component remains.
ghost use Rattle.std.specs.Prelude.{◌≡◌, ◌<◌, ◌-◌, ◌*◌, length, take, drop, remove, slice_index_or};
ghost use Rattle.buffer.specs.Buffer.{Put};
ghost use Rattle.unit.specs.declared.IntervalUnit.TheVariants.{Century};
ghost use Rattle.keypad.specs.Answer.{ways, others, components, join};

use crate::words::word;
use buffer::put;
use unit::IntervalUnit;

// The unit at a place of those not yet used, which is used now: those behind it move up.
fn take_out(i: usize, unused: &mut [IntervalUnit]) -> IntervalUnit
    requires { i < length unused.old }
    ensures unit { result ≡ slice_index_or unused.old i Century }
    ensures others { take (length unused.old - 1) unused.new ≡ remove unused.old i }
    ensures as_many { length unused.new ≡ length unused.old }
{
    let unit = unused[i];
    unused.copy_within(i + 1.., i);
    unit
}

// List number k of so many, each of `left` components with units not yet used, put into a buffer from a place on: the first digit, then what the
// unit turn puts.
#[cycle(turns)]
pub fn amount_turn(
    left: usize,
    lists: u64,
    k: u64,
    unused: &mut [IntervalUnit],
    buffer: &mut [u8],
    at: usize,
) -> usize
    requires some_left { 0 < left }
    requires all_lists { lists ≡ ways left (length unused.old) }
    requires one_of_them { k < lists }
    ensures { Put at (join (components left unused.old k)) buffer.old buffer.new result }
{
    // So many lists begin with each digit.
    let rest = lists / 10;
    let at = put(&[b'0' + (k / rest) as u8], buffer, at);
    unit_turn(left, rest, k % rest, unused, buffer, at)
}

// The same behind the first digit: the unit's word, then what the next amount turn puts, if a component remains.
#[cycle(turns)]
fn unit_turn(
    left: usize,
    lists: u64,
    k: u64,
    unused: &mut [IntervalUnit],
    buffer: &mut [u8],
    at: usize,
) -> usize
    requires some_left { 0 < left }
    requires all_lists { lists ≡ length unused.old * others (left - 1) unused.old }
    requires one_of_them { k < lists }
    ensures { Put at (drop 1 (join (components left unused.old k))) buffer.old buffer.new result }
{
    let others = unused.len() - 1;
    // So many of these lists begin with each unit.
    let rest = lists / unused.len() as u64;
    let unit = take_out((k / rest) as usize, unused);
    let at = put(word(unit), buffer, at);
    if left == 1 {
        return at;
    }
    let at = put(b" ", buffer, at);
    amount_turn(left - 1, rest, k % rest, &mut unused[..others], buffer, at)
}
