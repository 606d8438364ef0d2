// Intervals: amounts with their units, in the text form of PostgreSQL's interval input.
#![tactic(auto)]

ghost use Rattle.std.specs.Prelude.{◌≡◌};
ghost use Rattle.amount.specs.Grammar.{precision};
ghost use Rattle.unit.specs.declared.IntervalUnit.TheVariants.{Year, Month, Day};
ghost use Rattle.rule.specs.Answer.{month_day_nano, plain_month_day_nano, year_month, day_time};
ghost use Rattle.rule.specs.Meaning.{Means, Narrows, YearMonths, DayTimes};
ghost use Rattle.place.specs.Place.{Place};
ghost use Rattle.place.specs.Where.{place};
ghost use Rattle.total.specs.Read.{interval_outcome, place_read};
ghost use Rattle.interval.specs.Read.{year_month_outcome, year_month_place, day_time_outcome, day_time_place};

use count::{Days, Millis, Months};
use place::IntervalRefusal;
use total::{Interval, IntervalParseConfig};
use unit::IntervalUnit;

mod narrow;

// Days and milliseconds.
#[derive(Clone, Copy, Debug, PartialEq, Eq)]
pub struct IntervalDayTime {
    pub days: Days,
    pub millis: Millis,
}

// Months alone; a unit that is left out is the year. This reader and the next are of one shape, two lines each: one function over what narrows
// would be longer than both.
pub fn parse_interval_year_month(value: &[u8]) -> Result<Months, IntervalRefusal>
    ensures computed { year_month_outcome result ≡ year_month precision value.now }
    ensures meant { Narrows YearMonths precision Year value.now (year_month_outcome result) }
    ensures place { year_month_place result ≡ place precision Year value.now }
    ensures placed { Place precision Year value.now (year_month_place result) }
{
    let interval = Interval::parse(value, IntervalParseConfig::new(IntervalUnit::Year))?;
    narrow::to_year_months(interval).ok_or(IntervalRefusal::Narrowed)
}

// Days and milliseconds; a unit that is left out is the day.
pub fn parse_interval_day_time(value: &[u8]) -> Result<IntervalDayTime, IntervalRefusal>
    ensures computed { day_time_outcome result ≡ day_time precision value.now }
    ensures meant { Narrows DayTimes precision Day value.now (day_time_outcome result) }
    ensures place { day_time_place result ≡ place precision Day value.now }
    ensures placed { Place precision Day value.now (day_time_place result) }
{
    let interval = Interval::parse(value, IntervalParseConfig::new(IntervalUnit::Day))?;
    narrow::to_day_time(interval).ok_or(IntervalRefusal::Narrowed)
}

// Months, days and nanoseconds; the caller says which unit may be left out.
pub fn parse_interval_month_day_nano_config(
    value: &[u8],
    config: IntervalParseConfig,
) -> Result<Interval, IntervalRefusal>
    ensures computed { interval_outcome result ≡ month_day_nano precision config.default_unit value.now }
    ensures meant { Means precision config.default_unit value.now (interval_outcome result) }
    ensures place { place_read result ≡ place precision config.default_unit value.now }
    ensures placed { Place precision config.default_unit value.now (place_read result) }
{
    Interval::parse(value, config)
}

// The same; a unit that is left out is the month.
#[tactic(auto, unfolding(rule::specs::Answer::plain_month_day_nano))]
pub fn parse_interval_month_day_nano(value: &[u8]) -> Result<Interval, IntervalRefusal>
    ensures computed { interval_outcome result ≡ plain_month_day_nano precision value.now }
    ensures meant { Means precision Month value.now (interval_outcome result) }
    ensures place { place_read result ≡ place precision Month value.now }
    ensures placed { Place precision Month value.now (place_read result) }
{
    parse_interval_month_day_nano_config(value, IntervalParseConfig::new(IntervalUnit::Month))
}
