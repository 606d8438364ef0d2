// The answer of each reader, with the unit of its counts behind it, which is why the columns stand here one by one.
use crate::names::Reader;
use crate::show::{Out, Outcome, count, interval, listed, marked};
use date_column::{Date32Type, Date64Type};
use interval::{
    parse_interval_day_time, parse_interval_month_day_nano, parse_interval_month_day_nano_config,
    parse_interval_year_month,
};
use listing::list_interval;
use site::site_stamp;
use stamp_column::{
    TimestampMicrosecondType, TimestampMillisecondType, TimestampNanosecondType,
    TimestampSecondType,
};
use time::string_to_time_nanoseconds;
use time_column::{
    Time32MillisecondType, Time32SecondType, Time64MicrosecondType, Time64NanosecondType,
};
use timestamp::stamp::string_to_timestamp_nanos;
use total::IntervalParseConfig;
use unit::IntervalUnit;

const NANOS: &[u8] = b" nanoseconds";

const MICROS: &[u8] = b" microseconds";

const MILLIS: &[u8] = b" milliseconds";

const SECONDS: &[u8] = b" seconds";

pub fn of(reader: Reader, text: &[u8], out: &mut Out) -> Outcome {
    match reader {
        Reader::StampNanos => count(string_to_timestamp_nanos(text), NANOS, out),
        Reader::SiteStamp => marked(site_stamp(text), NANOS, out),
        Reader::TimestampNanosecond => count(TimestampNanosecondType::parse(text), NANOS, out),
        Reader::TimestampMicrosecond => count(TimestampMicrosecondType::parse(text), MICROS, out),
        Reader::TimestampMillisecond => count(TimestampMillisecondType::parse(text), MILLIS, out),
        Reader::TimestampSecond => count(TimestampSecondType::parse(text), SECONDS, out),
        Reader::TimeNanos => count(string_to_time_nanoseconds(text), NANOS, out),
        Reader::Time64Nanosecond => count(Time64NanosecondType::parse(text), NANOS, out),
        Reader::Time64Microsecond => count(Time64MicrosecondType::parse(text), MICROS, out),
        Reader::Time32Millisecond => count(Time32MillisecondType::parse(text), MILLIS, out),
        Reader::Time32Second => count(Time32SecondType::parse(text), SECONDS, out),
        Reader::Date32 => count(Date32Type::parse(text), b" days", out),
        Reader::Date64 => count(Date64Type::parse(text), MILLIS, out),
        Reader::Interval => interval(parse_interval_month_day_nano(text), out),
        Reader::IntervalIn(unit) => {
            let config = IntervalParseConfig::new(unit);
            interval(parse_interval_month_day_nano_config(text, config), out)
        }
        Reader::IntervalYearMonth => interval(parse_interval_year_month(text), out),
        Reader::IntervalDayTime => interval(parse_interval_day_time(text), out),
        Reader::List => listing(text, IntervalUnit::Month, out),
        Reader::ListIn(unit) => listing(text, unit, out),
    }
}

// The longest listing has 12 lines of at most 66 bytes.
fn listing(text: &[u8], default_unit: IntervalUnit, out: &mut Out) -> Outcome {
    let mut buffer = [0u8; 792];
    let config = IntervalParseConfig::new(default_unit);
    listed(list_interval(text, config, &mut buffer), &buffer, out)
}
