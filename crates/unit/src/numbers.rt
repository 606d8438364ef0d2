// The units by their numbers, from 0 century to 11 nanosecond.
ghost use Rattle.std.specs.Prelude.{◌≡◌};
ghost use Rattle.unit.specs.Units.{rank, unit_numbered};

use crate::IntervalUnit;

impl IntervalUnit {
    // The unit's place in the list, where its mark is kept.
    #[tactic(auto, unfolding(crate::specs::Units::rank))]
    pub fn mark(self) -> usize
        ensures { result ≡ rank self }
    {
        self as usize
    }
}

// The unit that a number names, if it names one: the inverse of `mark`. No `TryFrom`, which would want an error type that says no more than
// None, and would keep the promise out of sight.
#[tactic(auto, unfolding(crate::specs::Units::place))]
pub fn unit_numbered(number: u8) -> Option<IntervalUnit>
    ensures { result ≡ unit_numbered number }
{
    match number {
        0 => Some(IntervalUnit::Century),
        1 => Some(IntervalUnit::Decade),
        2 => Some(IntervalUnit::Year),
        3 => Some(IntervalUnit::Month),
        4 => Some(IntervalUnit::Week),
        5 => Some(IntervalUnit::Day),
        6 => Some(IntervalUnit::Hour),
        7 => Some(IntervalUnit::Minute),
        8 => Some(IntervalUnit::Second),
        9 => Some(IntervalUnit::Millisecond),
        10 => Some(IntervalUnit::Microsecond),
        11 => Some(IntervalUnit::Nanosecond),
        _ => None,
    }
}
