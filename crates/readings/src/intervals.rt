// Intervals.
use crate::show;
use interval::{
    parse_interval_day_time, parse_interval_month_day_nano, parse_interval_month_day_nano_config,
    parse_interval_year_month,
};
use lines::names::default_unit;
use place::IntervalRefusal;
use std::io;
use total::{Interval, IntervalParseConfig};

// Shows what the reader of a name answers, where it is one of theirs. Two of the three forms are read here alone: a match beside each is shorter
// than a trait of their counts.
pub fn of(out: &impl Print, name: &[u8], text: &[u8]) -> Option<io::Result<()>> {
    Some(match name {
        b"interval" => interval(out, parse_interval_month_day_nano(text)),
        b"year_month" => match parse_interval_year_month(text) {
            Ok(x) => counts(out, &[i64::from(x.0)]),
            Err(why) => refused(out, why),
        },
        b"day_time" => match parse_interval_day_time(text) {
            Ok(x) => counts(out, &[i64::from(x.days.0), i64::from(x.millis.0)]),
            Err(why) => refused(out, why),
        },
        _ => {
            let config = IntervalParseConfig::new(default_unit(name)?);
            interval(out, parse_interval_month_day_nano_config(text, config))
        }
    })
}

// Months, days and nanoseconds.
fn interval(out: &impl Print, r: Result<Interval, IntervalRefusal>) -> io::Result<()> {
    match r {
        Ok(x) => counts(
            out,
            &[i64::from(x.months.0), i64::from(x.days.0), x.nanos.0],
        ),
        Err(why) => refused(out, why),
    }
}

fn counts(out: &impl Print, counts: &[i64]) -> io::Result<()> {
    for (i, &z) in counts.iter().enumerate() {
        if i != 0 {
            show::bytes(out, b" ")?;
        }
        show::number(out, z)?;
    }
    Ok(())
}

// The number, and behind it the place, where there is one.
fn refused(out: &impl Print, why: IntervalRefusal) -> io::Result<()> {
    show::refused(out, why.refusal())?;
    match why.place() {
        Some(at) => print!(out; " at {at}"),
        None => Ok(()),
    }
}
