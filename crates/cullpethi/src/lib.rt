// The C interface: each function returns 0 and writes its cells, or returns a refusal's number and writes nothing but, where there is one, the
// cell that tells where (`index` of a column or of records, `place` of an interval). `cullpethi_c` exports each under its name: C has no generic calls.
#![tactic(auto)]

ghost use Rattle.column.specs.Columns.{column};
ghost use Rattle.column.specs.declared.Column.TheVariants.{TimestampNanosecond, TimestampMicrosecond, TimestampMillisecond, TimestampSecond, Time64Nanosecond, Time64Microsecond, Time32Millisecond, Time32Second, Date32, Date64};
ghost use Rattle.amount.specs.Grammar.{precision};
ghost use Rattle.rule.specs.Answer.{day_time, plain_month_day_nano, year_month};
ghost use Rattle.rule.specs.Meaning.{day_time_of};
ghost use Rattle.rule.specs.Contribution.{counts};
ghost use Rattle.time.specs.Answer.{time_nanos};
ghost use Rattle.stamp_text.specs.Answer.{stamp_nanos};
ghost use Rattle.site.specs.Site.{site_marked};
ghost use Rattle.unit.specs.Units.{unit_numbered};
ghost use Rattle.unit.specs.declared.IntervalUnit.TheVariants.{Year, Month, Day};
ghost use Rattle.place.specs.Where.{place as place_of};
ghost use Rattle.interval_text.specs.Text.{interval_text};
ghost use Rattle.refusal.specs.Outcome.{accepted};
ghost use Rattle.records.specs.Answer.{month_day_nanos, day_times};
ghost use Rattle.keypad.specs.Answer.{keypad_text};
ghost use Rattle.cells.specs.Cells.{Told, ToldPlace, ToldText, ToldColumn, ToldRecords, in_cells, index_of};
ghost use Rattle.parse_column.specs.Numbers.{column_numbered};
ghost use Rattle.cullpethi.specs.ColumnNumber.{in_column};
ghost use Rattle.cullpethi.specs.DefaultUnit.{in_unit, place_in_unit, listing_in_unit};
ghost use Rattle.std.specs.Prelude.{length};

use cells::{
    put, put_day_time, put_index, put_interval, put_listed, put_marked, put_months, put_record,
    status,
};
use count::{Days, Months, Nanos};
use date_column::{Date32Type, Date64Type};
use interval::{
    parse_interval_day_time, parse_interval_month_day_nano, parse_interval_month_day_nano_config,
    parse_interval_year_month,
};
use interval_text::write_interval;
use keypad::keypad_text;
use listing::list_interval;
use parse_column::numbers::column_numbered;
use parse_column::parse_column;
use records::{day_time_to_month_day_nano, month_day_nano_to_day_time};
use site::site_stamp;
use stamp_column::{
    TimestampMicrosecondType, TimestampMillisecondType, TimestampNanosecondType,
    TimestampSecondType,
};
use time::string_to_time_nanoseconds;
use time_column::{
    Time32MillisecondType, Time32SecondType, Time64MicrosecondType, Time64NanosecondType,
};
use timestamp::stamp::string_to_timestamp_nanos;
use total::{Interval, IntervalParseConfig};
use unit::numbers::unit_numbered;

// A stamp, in nanoseconds since 1970-01-01.
pub fn cullpethi_string_to_timestamp_nanos(text: &[u8], nanos: &mut i64) -> u8
    ensures { Told (stamp_nanos text.now) result nanos.old nanos.new }
{
    put(string_to_timestamp_nanos(text), nanos)
}

// A time of day, in nanoseconds since midnight.
pub fn cullpethi_string_to_time_nanoseconds(text: &[u8], nanos: &mut i64) -> u8
    ensures { Told (time_nanos text.now) result nanos.old nanos.new }
{
    put(string_to_time_nanoseconds(text), nanos)
}

// A site stamp, in nanoseconds since 1970-01-01, and the mark of second 60.
pub fn cullpethi_site_stamp(text: &[u8], nanos: &mut i64, leap: &mut u8) -> u8
    ensures { Told (in_cells (site_marked text.now)) result (nanos.old, leap.old) (nanos.new, leap.new) }
{
    put_marked(site_stamp(text), nanos, leap)
}

// A timestamp column in nanoseconds.
pub fn cullpethi_parse_timestamp_nanosecond(text: &[u8], nanos: &mut i64) -> u8
    ensures { Told (column TimestampNanosecond text.now) result nanos.old nanos.new }
{
    put(TimestampNanosecondType::parse(text), nanos)
}

// A timestamp column in microseconds.
pub fn cullpethi_parse_timestamp_microsecond(text: &[u8], micros: &mut i64) -> u8
    ensures { Told (column TimestampMicrosecond text.now) result micros.old micros.new }
{
    put(TimestampMicrosecondType::parse(text), micros)
}

// A timestamp column in milliseconds.
pub fn cullpethi_parse_timestamp_millisecond(text: &[u8], millis: &mut i64) -> u8
    ensures { Told (column TimestampMillisecond text.now) result millis.old millis.new }
{
    put(TimestampMillisecondType::parse(text), millis)
}

// A timestamp column in seconds.
pub fn cullpethi_parse_timestamp_second(text: &[u8], seconds: &mut i64) -> u8
    ensures { Told (column TimestampSecond text.now) result seconds.old seconds.new }
{
    put(TimestampSecondType::parse(text), seconds)
}

// A time column in nanoseconds.
pub fn cullpethi_parse_time64_nanosecond(text: &[u8], nanos: &mut i64) -> u8
    ensures { Told (column Time64Nanosecond text.now) result nanos.old nanos.new }
{
    put(Time64NanosecondType::parse(text), nanos)
}

// A time column in microseconds.
pub fn cullpethi_parse_time64_microsecond(text: &[u8], micros: &mut i64) -> u8
    ensures { Told (column Time64Microsecond text.now) result micros.old micros.new }
{
    put(Time64MicrosecondType::parse(text), micros)
}

// A date column in milliseconds since 1970-01-01.
pub fn cullpethi_parse_date64(text: &[u8], millis: &mut i64) -> u8
    ensures { Told (column Date64 text.now) result millis.old millis.new }
{
    put(Date64Type::parse(text), millis)
}

// A time column in milliseconds, of 32 bits.
pub fn cullpethi_parse_time32_millisecond(text: &[u8], millis: &mut i32) -> u8
    ensures { Told (column Time32Millisecond text.now) result millis.old millis.new }
{
    put(Time32MillisecondType::parse(text), millis)
}

// A time column in seconds, of 32 bits.
pub fn cullpethi_parse_time32_second(text: &[u8], seconds: &mut i32) -> u8
    ensures { Told (column Time32Second text.now) result seconds.old seconds.new }
{
    put(Time32SecondType::parse(text), seconds)
}

// A date column in days since 1970-01-01.
pub fn cullpethi_parse_date32(text: &[u8], days: &mut i32) -> u8
    ensures { Told (column Date32 text.now) result days.old days.new }
{
    put(Date32Type::parse(text), days)
}

// An interval in months; years are the default unit.
pub fn cullpethi_parse_interval_year_month(text: &[u8], months: &mut i32, place: &mut usize) -> u8
    ensures { Told (year_month precision text.now) result months.old months.new × ToldPlace (place_of precision Year text.now) place.old place.new }
{
    put_months(parse_interval_year_month(text), months, place)
}

// An interval in days and milliseconds; days are the default unit.
pub fn cullpethi_parse_interval_day_time(
    text: &[u8],
    days: &mut i32,
    millis: &mut i32,
    place: &mut usize,
) -> u8
    ensures { Told (day_time precision text.now) result (day_time_of days.old millis.old) (day_time_of days.new millis.new) × ToldPlace (place_of precision Day text.now) place.old place.new }
{
    put_day_time(parse_interval_day_time(text), days, millis, place)
}

// An interval in months, days and nanoseconds; months are the default unit.
pub fn cullpethi_parse_interval_month_day_nano(
    text: &[u8],
    months: &mut i32,
    days: &mut i32,
    nanos: &mut i64,
    place: &mut usize,
) -> u8
    ensures { Told (plain_month_day_nano precision text.now) result (counts months.old days.old nanos.old) (counts months.new days.new nanos.new) × ToldPlace (place_of precision Month text.now) place.old place.new }
{
    let read = parse_interval_month_day_nano(text);
    put_interval(read, months, days, nanos, place)
}

// The same with a default unit by its number, 0 century to 11 nanosecond; 255 where there is no such unit.
pub fn cullpethi_parse_interval_month_day_nano_config(
    text: &[u8],
    default_unit: u8,
    months: &mut i32,
    days: &mut i32,
    nanos: &mut i64,
    place: &mut usize,
) -> u8
    ensures { Told (in_unit (unit_numbered default_unit) text.now) result (counts months.old days.old nanos.old) (counts months.new days.new nanos.new) × ToldPlace (place_in_unit (unit_numbered default_unit) text.now) place.old place.new }
{
    match unit_numbered(default_unit) {
        Some(unit) => put_interval(
            parse_interval_month_day_nano_config(text, IntervalParseConfig::new(unit)),
            months,
            days,
            nanos,
            place,
        ),
        None => 255,
    }
}

// An interval as text, into a buffer: `length` is how many bytes were written; 14 where the buffer is too short.
pub fn cullpethi_write_interval(
    months: i32,
    days: i32,
    nanos: i64,
    buffer: &mut [u8],
    length: &mut usize,
) -> u8
    ensures { ToldText (accepted (interval_text (counts months days nanos))) result length.old length.new buffer.old buffer.new }
{
    let interval = Interval {
        months: Months(months),
        days: Days(days),
        nanos: Nanos(nanos),
    };
    put(write_interval(interval, buffer), length)
}

// The components of an interval text, a line each, with a default unit by its number: 255 where there is no such unit, then the reader's refusal,
// then 14.
pub fn cullpethi_list_interval(
    text: &[u8],
    default_unit: u8,
    buffer: &mut [u8],
    length: &mut usize,
    place: &mut usize,
) -> u8
    ensures { ToldText (listing_in_unit (unit_numbered default_unit) text.now) result length.old length.new buffer.old buffer.new × ToldPlace (place_in_unit (unit_numbered default_unit) text.now) place.old place.new }
{
    if let Some(unit) = unit_numbered(default_unit) {
        let config = IntervalParseConfig::new(unit);
        put_listed(list_interval(text, config, buffer), length, place)
    } else {
        255
    }
}

// A whole column by its number, 0 TimestampNanosecond to 9 Date64: each text by the column's reader, its value into its cell, or the first
// refused one's number and index; 13 where ends fall or pass the bytes or cells are too few, 255 where there is no such column.
#[tactic(auto, unfolding(whole_column::specs::Answer::cells_after))]
pub fn cullpethi_parse_column(
    column: u8,
    texts: &[u8],
    ends: &[u32],
    cells: &mut [i64],
    index: &mut usize,
) -> u8
    ensures { ToldColumn (in_column (column_numbered «column») texts.now ends.now (length cells.old)) result index.old index.new cells.old cells.new }
{
    let Some(column) = column_numbered(column) else {
        return 255;
    };
    put_index(parse_column(column, texts, ends, cells), index)
}

// Every day-time record of a slice as a month-day-nano record: 16 where the bytes are no whole number of records, then 14 where the other
// buffer is too short.
pub fn cullpethi_day_time_to_month_day_nano(from: &[u8], to: &mut [u8]) -> u8
    ensures { ToldRecords (month_day_nanos from.now (length to.old)) result to.old to.new }
{
    status(day_time_to_month_day_nano(from, to))
}

// Every month-day-nano record of a slice as a day-time record: 16, then 14, then 11 and the index of the first that has none.
pub fn cullpethi_month_day_nano_to_day_time(from: &[u8], to: &mut [u8], index: &mut usize) -> u8
    ensures { ToldRecords (day_times from.now (length to.old)) result to.old to.new × ToldPlace (index_of (day_times from.now (length to.old))) index.old index.new }
{
    put_record(month_day_nano_to_day_time(from, to), index)
}

// Keypad text k, into a buffer: `length` is how many bytes were written; 17 where there is no text k, then 14 where the buffer is too short.
pub fn cullpethi_keypad_text(k: u64, buffer: &mut [u8], length: &mut usize) -> u8
    ensures { ToldText (keypad_text k) result length.old length.new buffer.old buffer.new }
{
    put(keypad_text(k, buffer), length)
}
