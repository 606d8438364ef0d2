// Answers as they are stored: counts with commas between them, or `r` and the number of the refusal. The three forms of intervals differ in
// their counts alone: a trait of them would be longer.
use count::Months;
use interval::IntervalDayTime;
use place::IntervalRefusal;
use refusal::Refusal;
use room::Room;
use total::Interval;

pub type Answer = Room<64>;

// A count of either width.
pub fn of_count<Z: Into<i64>>(r: Result<Z, Refusal>) -> Answer {
    r.map_or_else(refused, |z| counts(&[z.into()]))
}

// Months.
pub fn of_months(r: Result<Months, IntervalRefusal>) -> Answer {
    r.map_or_else(interval_refused, |x| counts(&[i64::from(x.0)]))
}

// Months, days and nanoseconds.
pub fn of_interval(r: Result<Interval, IntervalRefusal>) -> Answer {
    r.map_or_else(interval_refused, |x| {
        counts(&[i64::from(x.months.0), i64::from(x.days.0), x.nanos.0])
    })
}

// Days and milliseconds.
pub fn of_day_time(r: Result<IntervalDayTime, IntervalRefusal>) -> Answer {
    r.map_or_else(interval_refused, |x| {
        counts(&[i64::from(x.days.0), i64::from(x.millis.0)])
    })
}

fn counts(counts: &[i64]) -> Answer {
    let mut out = Room::new();
    for (i, &z) in counts.iter().enumerate() {
        if i != 0 {
            out.put(b",");
        }
        out.put_signed(z);
    }
    out
}

fn refused(why: Refusal) -> Answer {
    let mut out = Room::new();
    out.put(b"r");
    out.put_number(u64::from(why.number()));
    out
}

fn interval_refused(why: IntervalRefusal) -> Answer {
    refused(why.refusal())
}
