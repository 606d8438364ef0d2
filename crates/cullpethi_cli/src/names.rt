// What the words of the command line name.
use unit::IntervalUnit;

// What is done.
#[derive(Clone, Copy)]
pub enum Task {
    Read(Reader),
    // Three numbers are printed as an interval.
    PrintInterval,
    // A number's keypad text is written.
    Keypad,
}

impl Task {
    pub fn named(name: &[u8]) -> Option<Task> {
        match name {
            b"print_interval" => Some(Task::PrintInterval),
            b"keypad" => Some(Task::Keypad),
            _ => Reader::named(name).map(Task::Read),
        }
    }
}

#[derive(Clone, Copy)]
pub enum Reader {
    StampNanos,
    SiteStamp,
    TimestampNanosecond,
    TimestampMicrosecond,
    TimestampMillisecond,
    TimestampSecond,
    TimeNanos,
    Time64Nanosecond,
    Time64Microsecond,
    Time32Millisecond,
    Time32Second,
    Date32,
    Date64,
    Interval,
    IntervalIn(IntervalUnit),
    IntervalYearMonth,
    IntervalDayTime,
    // The components of an interval.
    List,
    ListIn(IntervalUnit),
}

impl Reader {
    pub fn named(name: &[u8]) -> Option<Reader> {
        match name {
            b"string_to_timestamp_nanos" => Some(Reader::StampNanos),
            b"site_stamp" => Some(Reader::SiteStamp),
            b"timestamp_nanosecond" => Some(Reader::TimestampNanosecond),
            b"timestamp_microsecond" => Some(Reader::TimestampMicrosecond),
            b"timestamp_millisecond" => Some(Reader::TimestampMillisecond),
            b"timestamp_second" => Some(Reader::TimestampSecond),
            b"string_to_time_nanoseconds" => Some(Reader::TimeNanos),
            b"time64_nanosecond" => Some(Reader::Time64Nanosecond),
            b"time64_microsecond" => Some(Reader::Time64Microsecond),
            b"time32_millisecond" => Some(Reader::Time32Millisecond),
            b"time32_second" => Some(Reader::Time32Second),
            b"date32" => Some(Reader::Date32),
            b"date64" => Some(Reader::Date64),
            b"interval" => Some(Reader::Interval),
            b"interval_year_month" => Some(Reader::IntervalYearMonth),
            b"interval_day_time" => Some(Reader::IntervalDayTime),
            b"list" => Some(Reader::List),
            _ => None,
        }
    }
}
