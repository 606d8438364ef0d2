// Every small sheet entry, for the keypad test: all interval texts of one to three components, each a digit glued to a unit's word, no unit
// twice.
#![tactic(auto)]

ghost use Rattle.std.specs.Prelude.{◌≤◌, ◌<◌, length};
ghost use Rattle.buffer.specs.Buffer.{Put};
ghost use Rattle.buffer.specs.Written.{Written};
ghost use Rattle.refusal.specs.Outcome.{outcome};
ghost use Rattle.keypad.specs.Answer.{text_of, keypad_text};

mod turns;
mod words;

use refusal::Refusal;
use turns::amount_turn;
use unit::IntervalUnit;

// How many texts there are of one component, of one or two, and of one to three.
const OF_ONE: u64 = 120;

const TO_TWO: u64 = 13_320;

const TO_THREE: u64 = 1_333_320;

// The units in document 02's order.
const UNITS: [IntervalUnit; 12] = [
    IntervalUnit::Century,
    IntervalUnit::Decade,
    IntervalUnit::Year,
    IntervalUnit::Month,
    IntervalUnit::Week,
    IntervalUnit::Day,
    IntervalUnit::Hour,
    IntervalUnit::Minute,
    IntervalUnit::Second,
    IntervalUnit::Millisecond,
    IntervalUnit::Microsecond,
    IntervalUnit::Nanosecond,
];

// Text k, put into a buffer from its front on, as `buffer::put` puts bytes.
#[tactic(auto, using(crate::proofs::Longest::held), unfolding(crate::specs::Answer::ways))]
fn put_text(k: u64, buffer: &mut [u8]) -> usize
    requires { k < 1_333_320 }
    ensures text { Put 0 (text_of k) buffer.old buffer.new result }
    ensures short { length (text_of k) ≤ 21 }
{
    let mut unused = UNITS;
    if k < OF_ONE {
        amount_turn(1, OF_ONE, k, &mut unused, buffer, 0)
    } else if k < TO_TWO {
        amount_turn(2, TO_TWO - OF_ONE, k - OF_ONE, &mut unused, buffer, 0)
    } else {
        amount_turn(3, TO_THREE - TO_TWO, k - TO_TWO, &mut unused, buffer, 0)
    }
}

// Text k written into a buffer, and its length, at most 21; the rest of the buffer is kept. 17 where there is no text k, then 14 where the buffer is
// too short, and nothing is written.
pub fn keypad_text(k: u64, buffer: &mut [u8]) -> Result<usize, Refusal>
    ensures { Written (keypad_text k) (outcome result) buffer.old buffer.new }
{
    if TO_THREE <= k {
        return Err(Refusal::Keypad);
    }
    // Into no room at all: the length is known before a byte is written.
    let len = put_text(k, &mut []);
    if buffer.len() < len {
        return Err(Refusal::Buffer);
    }
    Ok(put_text(k, buffer))
}
