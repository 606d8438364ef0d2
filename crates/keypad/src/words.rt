// The units' words on the keypad.
ghost use Rattle.std.specs.Prelude.{◌≡◌};
ghost use Rattle.keypad.specs.Texts.{word};

use unit::IntervalUnit;

// Document 02's word of a unit.
#[tactic(auto, unfolding(crate::specs::Texts::word))]
pub fn word(unit: IntervalUnit) -> &'static [u8]
    ensures { result.now ≡ word unit }
{
    match unit {
        IntervalUnit::Century => b"c",
        IntervalUnit::Decade => b"dec",
        IntervalUnit::Year => b"y",
        IntervalUnit::Month => b"mon",
        IntervalUnit::Week => b"w",
        IntervalUnit::Day => b"d",
        IntervalUnit::Hour => b"h",
        IntervalUnit::Minute => b"m",
        IntervalUnit::Second => b"s",
        IntervalUnit::Millisecond => b"ms",
        IntervalUnit::Microsecond => b"us",
        IntervalUnit::Nanosecond => b"nanosecond",
    }
}
