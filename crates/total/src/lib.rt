// What the components of an interval text add up to: months, days and nanoseconds.
#![tactic(auto)]

ghost use Rattle.std.specs.Prelude.{◌≡◌};

use count::{Days, Months, Nanos};
use unit::IntervalUnit;

mod components;
mod contributions;

// The three counts of an interval, which never pass for one another.
#[derive(Clone, Copy, Debug, PartialEq, Eq)]
pub struct Interval {
    pub months: Months,
    pub days: Days,
    pub nanos: Nanos,
}

// The unit of a last component that has none.
#[derive(Clone, Copy, Debug, PartialEq, Eq)]
pub struct IntervalParseConfig {
    pub default_unit: IntervalUnit,
}

impl IntervalParseConfig {
    pub fn new(default_unit: IntervalUnit) -> Self
        ensures { result.default_unit ≡ default_unit }
    {
        Self { default_unit }
    }
}
