// The narrowed forms of an interval: Rust's `Interval::to_year_months` and `to_day_time`.
ghost use Rattle.std.specs.Prelude.{◌≡◌};
ghost use Rattle.count.specs.Read.{maybe_months, maybe_days, maybe_millis};
ghost use Rattle.rule.specs.Answer.{to_year_months, to_day_time};
ghost use Rattle.total.specs.Read.{counts_of};
ghost use Rattle.interval.specs.Helpers.{maybe_day_time, in_days, in_millis};

use crate::IntervalDayTime;
use count::{Days, Millis, Months, Nanos};
use number::checked;
use total::Interval;

// Months times 30 plus days, each step in 32 bits.
#[tactic(auto, unfolding(crate::specs::Helpers::in_days))]
pub fn all_days(months: Months, days: Days) -> Option<Days>
    ensures { maybe_days result ≡ in_days months.0 days.0 }
{
    Days(months.0.checked_mul(30)?).plus(days)
}

// Nanoseconds over 1,000,000, where that divides them and what comes of it fits.
#[tactic(auto, unfolding(crate::specs::Helpers::in_millis))]
pub fn all_millis(nanos: Nanos) -> Option<Millis>
    ensures { maybe_millis result ≡ in_millis nanos.0 }
{
    match nanos.0 {
        n if n % 1_000_000 == 0 => checked::narrow(n / 1_000_000).map(Millis),
        _ => None,
    }
}

// The months, where there are no days and no nanoseconds.
#[tactic(auto, unfolding(rule::specs::Answer::to_year_months))]
pub fn to_year_months(interval: Interval) -> Option<Months>
    ensures { maybe_months result ≡ to_year_months (counts_of interval) }
{
    match (interval.days, interval.nanos) {
        (Days(0), Nanos(0)) => Some(interval.months),
        _ => None,
    }
}

#[tactic(auto, unfolding(crate::specs::Helpers::in_days, crate::specs::Helpers::in_millis, rule::specs::Answer::to_day_time, rule::specs::Answer::day_time_fits))]
pub fn to_day_time(interval: Interval) -> Option<IntervalDayTime>
    ensures { maybe_day_time result ≡ to_day_time (counts_of interval) }
{
    Some(IntervalDayTime {
        days: all_days(interval.months, interval.days)?,
        millis: all_millis(interval.nanos)?,
    })
}
