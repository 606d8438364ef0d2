// The names of units.
ghost use Rattle.std.specs.Prelude.{◌≡◌};
ghost use Rattle.listing.specs.Names.{name};

use unit::IntervalUnit;

// In the singular.
#[tactic(auto, unfolding(crate::specs::Names::name))]
pub fn name(unit: IntervalUnit) -> &'static [u8]
    ensures { result.now ≡ name unit }
{
    match unit {
        IntervalUnit::Century => b"century",
        IntervalUnit::Decade => b"decade",
        IntervalUnit::Year => b"year",
        IntervalUnit::Month => b"month",
        IntervalUnit::Week => b"week",
        IntervalUnit::Day => b"day",
        IntervalUnit::Hour => b"hour",
        IntervalUnit::Minute => b"minute",
        IntervalUnit::Second => b"second",
        IntervalUnit::Millisecond => b"millisecond",
        IntervalUnit::Microsecond => b"microsecond",
        IntervalUnit::Nanosecond => b"nanosecond",
    }
}
