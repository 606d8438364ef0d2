// One record's bytes.
ghost use Rattle.std.specs.Prelude.{◌≡◌};
ghost use Rattle.total.specs.Read.{counts_of};
ghost use Rattle.records.specs.Answer.{day_time_in, day_time_bytes, month_day_nano_in, month_day_nano_bytes};
ghost use Rattle.records.specs.Read.{day_time_held};

use count::{Days, Millis, Months, Nanos};
use interval::IntervalDayTime;
use little_endian::{read_i32, read_i64, write_i32, write_i64};
use total::Interval;

// Days, then milliseconds.
#[tactic(auto, using(crate::proofs::Parts::day_time_read))]
pub fn read_day_time(record: &[u8; 8]) -> IntervalDayTime
    ensures { day_time_held result ≡ day_time_in record.now }
{
    let [d0, d1, d2, d3, m0, m1, m2, m3] = *record;
    IntervalDayTime {
        days: Days(read_i32([d0, d1, d2, d3])),
        millis: Millis(read_i32([m0, m1, m2, m3])),
    }
}

#[tactic(auto, using(crate::proofs::Parts::day_time_written))]
pub fn write_day_time(x: IntervalDayTime) -> [u8; 8]
    ensures { result ≡ day_time_bytes (day_time_held x) }
{
    let [d0, d1, d2, d3] = write_i32(x.days.0);
    let [m0, m1, m2, m3] = write_i32(x.millis.0);
    [d0, d1, d2, d3, m0, m1, m2, m3]
}

// Months, then days, then nanoseconds.
#[tactic(auto, using(crate::proofs::Parts::month_day_nano_read))]
pub fn read_month_day_nano(record: &[u8; 16]) -> Interval
    ensures { counts_of result ≡ month_day_nano_in record.now }
{
    let [
        m0,
        m1,
        m2,
        m3,
        d0,
        d1,
        d2,
        d3,
        n0,
        n1,
        n2,
        n3,
        n4,
        n5,
        n6,
        n7,
    ] = *record;
    Interval {
        months: Months(read_i32([m0, m1, m2, m3])),
        days: Days(read_i32([d0, d1, d2, d3])),
        nanos: Nanos(read_i64([n0, n1, n2, n3, n4, n5, n6, n7])),
    }
}

#[tactic(auto, using(crate::proofs::Parts::month_day_nano_written))]
pub fn write_month_day_nano(x: Interval) -> [u8; 16]
    ensures { result ≡ month_day_nano_bytes (counts_of x) }
{
    let [m0, m1, m2, m3] = write_i32(x.months.0);
    let [d0, d1, d2, d3] = write_i32(x.days.0);
    let [n0, n1, n2, n3, n4, n5, n6, n7] = write_i64(x.nanos.0);
    [
        m0, m1, m2, m3, d0, d1, d2, d3, n0, n1, n2, n3, n4, n5, n6, n7,
    ]
}
