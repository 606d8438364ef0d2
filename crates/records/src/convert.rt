// One record in the other form.
ghost use Rattle.std.specs.Prelude.{◌≡◌, Some};
ghost use Rattle.total.specs.Read.{counts_of};
ghost use Rattle.records.specs.Answer.{to_month_day_nano, to_day_time, new_record, old_record};
ghost use Rattle.records.specs.Read.{day_time_held, maybe_day_time};

use crate::record::{read_day_time, read_month_day_nano, write_day_time, write_month_day_nano};
use count::{Millis, Months, Nanos};
use interval::IntervalDayTime;
use number::checked;
use total::Interval;

// "With months 0, its days, and its milliseconds times 1,000,000".
#[tactic(auto, unfolding(crate::specs::Answer::to_month_day_nano))]
pub fn to_month_day_nano(old: IntervalDayTime) -> Interval
    ensures { counts_of result ≡ to_month_day_nano (day_time_held old) }
{
    Interval {
        months: Months(0),
        days: old.days,
        nanos: Nanos(i64::from(old.millis.0) * 1_000_000),
    }
}

// "Needs months 0, nanoseconds a multiple of 1,000,000, and milliseconds that fit".
#[tactic(auto, unfolding(crate::specs::Answer::to_day_time, crate::specs::Answer::goes))]
pub fn to_day_time(new: Interval) -> Option<IntervalDayTime>
    ensures { maybe_day_time result ≡ to_day_time (counts_of new) }
{
    if new.months.0 != 0 || new.nanos.0 % 1_000_000 != 0 {
        return None;
    }
    let millis = Millis(checked::narrow(new.nanos.0 / 1_000_000)?);
    Some(IntervalDayTime {
        days: new.days,
        millis,
    })
}

// The new record of an old one.
pub fn new_record(record: &[u8; 8]) -> [u8; 16]
    ensures { Some result ≡ new_record record.now }
{
    write_month_day_nano(to_month_day_nano(read_day_time(record)))
}

// The old record of a new one, if it has one.
#[tactic(auto, unfolding(crate::specs::Answer::bytes_if))]
pub fn old_record(record: &[u8; 16]) -> Option<[u8; 8]>
    ensures { result ≡ old_record record.now }
{
    let x = to_day_time(read_month_day_nano(record))?;
    Some(write_day_time(x))
}
