// Stamps, times of day, dates and their columns, each read as one count.
use date_column::{Date32Type, Date64Type};
use refusal::Refusal;
use stamp_column::{
    TimestampMicrosecondType, TimestampMillisecondType, TimestampNanosecondType,
    TimestampSecondType,
};
use time::string_to_time_nanoseconds;
use time_column::{
    Time32MillisecondType, Time32SecondType, Time64MicrosecondType, Time64NanosecondType,
};
use timestamp::stamp::string_to_timestamp_nanos;

// What the reader of a name answers, where it is one of theirs. Each is called by its own name, so that each is run; `replay` has the names too,
// and other readers beside them.
pub fn of(name: &[u8], text: &[u8]) -> Option<Result<i64, Refusal>> {
    Some(match name {
        b"stamp" => string_to_timestamp_nanos(text),
        b"ts_ns" => TimestampNanosecondType::parse(text),
        b"ts_us" => TimestampMicrosecondType::parse(text),
        b"ts_ms" => TimestampMillisecondType::parse(text),
        b"ts_s" => TimestampSecondType::parse(text),
        b"time" => string_to_time_nanoseconds(text),
        b"t64_ns" => Time64NanosecondType::parse(text),
        b"t64_us" => Time64MicrosecondType::parse(text),
        b"t32_ms" => Time32MillisecondType::parse(text).map(i64::from),
        b"t32_s" => Time32SecondType::parse(text).map(i64::from),
        b"date32" => Date32Type::parse(text).map(i64::from),
        b"date64" => Date64Type::parse(text),
        _ => return None,
    })
}
