// A day with a time of it, and the instant that they name.
#![tactic(auto)]

ghost use Rattle.std.specs.Prelude.{◌≡◌};
ghost use Rattle.number.specs.Widths.{fit};
ghost use Rattle.datetime.specs.Moment.{instant};

use clock::{NaiveTime, nanos_of_day};
use number::sign::signed_i64;

// A day, counted from 1970-01-01, and a time of it.
#[derive(Clone, Copy)]
pub struct NaiveDateTime {
    pub day: i64,
    pub time: NaiveTime,
}

// Nanoseconds since 1970-01-01, where they fit. The size is put together before the sign, so that the least number is reached.
pub fn to_timestamp_nanos(dt: NaiveDateTime) -> Option<i64>
    ensures { result ≡ fit 63 (instant dt) }
{
    if dt.day < -200_000 || 200_000 < dt.day {
        return None;
    }
    let part = nanos_of_day(&dt.time).unsigned_abs();
    // Behind the test of its sign the day's size is the day: made before it, each call was slower.
    if 0 <= dt.day {
        return signed_i64(false, dt.day.unsigned_abs() * 86_400_000_000_000 + part);
    }
    let whole = dt.day.unsigned_abs() * 86_400_000_000_000;
    if part <= whole {
        signed_i64(true, whole - part)
    } else {
        signed_i64(false, part - whole)
    }
}
