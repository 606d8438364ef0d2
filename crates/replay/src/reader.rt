// The reader of a name.
use crate::answer::{Answer, of_count, of_day_time, of_interval, of_months};
use date_column::{Date32Type, Date64Type};
use interval::{
    parse_interval_day_time, parse_interval_month_day_nano, parse_interval_month_day_nano_config,
    parse_interval_year_month,
};
use lines::names::default_unit;
use stamp_column::{
    TimestampMicrosecondType, TimestampMillisecondType, TimestampNanosecondType,
    TimestampSecondType,
};
use time::string_to_time_nanoseconds;
use time_column::{
    Time32MillisecondType, Time32SecondType, Time64MicrosecondType, Time64NanosecondType,
};
use timestamp::stamp::string_to_timestamp_nanos;
use total::IntervalParseConfig;

// What it answers to a text, as it is stored; nothing where the name is no reader's.
pub fn of(name: &[u8], text: &[u8]) -> Option<Answer> {
    Some(match name {
        b"stamp" => of_count(string_to_timestamp_nanos(text)),
        b"ts_ns" => of_count(TimestampNanosecondType::parse(text)),
        b"ts_us" => of_count(TimestampMicrosecondType::parse(text)),
        b"ts_ms" => of_count(TimestampMillisecondType::parse(text)),
        b"ts_s" => of_count(TimestampSecondType::parse(text)),
        b"time" => of_count(string_to_time_nanoseconds(text)),
        b"t64_ns" => of_count(Time64NanosecondType::parse(text)),
        b"t64_us" => of_count(Time64MicrosecondType::parse(text)),
        b"t32_ms" => of_count(Time32MillisecondType::parse(text)),
        b"t32_s" => of_count(Time32SecondType::parse(text)),
        b"date32" => of_count(Date32Type::parse(text)),
        b"date64" => of_count(Date64Type::parse(text)),
        b"interval" => of_interval(parse_interval_month_day_nano(text)),
        b"year_month" => of_months(parse_interval_year_month(text)),
        b"day_time" => of_day_time(parse_interval_day_time(text)),
        _ => {
            let config = IntervalParseConfig::new(default_unit(name)?);
            of_interval(parse_interval_month_day_nano_config(text, config))
        }
    })
}
