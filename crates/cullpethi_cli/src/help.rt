// What the program says of itself.
use crate::names::{Reader, Task};
use crate::output::{Failure, Streams};
use crate::show::{Out, refusal};
use crate::{Status, output};
use refusal::Refusal;
use room::Room;

pub fn version(to: Streams) -> Result<Status, Failure> {
    told(to, b"cullpethi 0.1.0\n")
}

// The readers' names, where a word names none.
pub fn names(to: Streams) {
    let names =
        b"the readers are string_to_timestamp_nanos, site_stamp, timestamp_nanosecond, timestamp_microsecond, \
        timestamp_millisecond, timestamp_second, string_to_time_nanoseconds, time64_nanosecond, time64_microsecond, \
        time32_millisecond, time32_second, date32, date64, interval, interval_year_month, interval_day_time, \
        list; print_interval prints, and keypad gives a keypad text";
    output::said(to, &[names]);
}

pub fn all(to: Streams) -> Result<Status, Failure> {
    let mut out = Room::new();
    usage(&mut out);
    stamps(&mut out);
    times(&mut out);
    dates(&mut out);
    intervals(&mut out);
    printing(&mut out);
    keypad(&mut out);
    refusals(&mut out);
    out.put(
        b"\nExit status: 0 each text was read, or the interval or keypad text printed, 1 one was refused or too long, 2 bad usage or no input or output.\n",
    );
    told(to, out.as_bytes())
}

// What one reader reads, or what is printed.
pub fn one(to: Streams, task: Task) -> Result<Status, Failure> {
    let mut out = Room::new();
    match task {
        Task::Read(reader) => group(reader, &mut out),
        Task::PrintInterval => printing(&mut out),
        Task::Keypad => keypad(&mut out),
    }
    out.put(b"\nThe other readers, the options and the refusals: cullpethi --help\n");
    told(to, out.as_bytes())
}

fn told(to: Streams, page: &[u8]) -> Result<Status, Failure> {
    output::written(to, page)?;
    Ok(Status::Read)
}

// The readers that read the same texts have one page.
fn group(reader: Reader, out: &mut Out) {
    match reader {
        Reader::StampNanos
        | Reader::SiteStamp
        | Reader::TimestampNanosecond
        | Reader::TimestampMicrosecond
        | Reader::TimestampMillisecond
        | Reader::TimestampSecond => stamps(out),
        Reader::TimeNanos
        | Reader::Time64Nanosecond
        | Reader::Time64Microsecond
        | Reader::Time32Millisecond
        | Reader::Time32Second => times(out),
        Reader::Date32 | Reader::Date64 => dates(out),
        Reader::Interval
        | Reader::IntervalIn(_)
        | Reader::IntervalYearMonth
        | Reader::IntervalDayTime
        | Reader::List
        | Reader::ListIn(_) => intervals(out),
    }
}

fn usage(out: &mut Out) {
    out.put(
        b"cullpethi READER TEXT       read a text
cullpethi READER [-]        read each line of standard input, of at most 65536 bytes
cullpethi READER --help     what the reader reads
cullpethi print_interval MONTHS DAYS NANOSECONDS
                            print an interval
cullpethi keypad K          print keypad text K
",
    );
    out.put(
        b"
  --default UNIT            interval and list alone: the unit of a last amount that names none; also --default=UNIT
  --number                  the line's number in front of each answer
  -h, --help                this page
  -V, --version             the version
  --                        every word behind it is the reader, the text or a number
Any other word that begins with a minus is a text or a number: -5, '-.5 days'. A line ends at its line feed: a carriage return belongs to the text.
",
    );
}

fn stamps(out: &mut Out) {
    out.put(
        b"
Stamps, counted from 1970-01-01T00:00:00Z:
  string_to_timestamp_nanos   in nanoseconds
  site_stamp                  in nanoseconds, with ', leap second' behind them where the second is 60
  timestamp_nanosecond timestamp_microsecond timestamp_millisecond timestamp_second
                              in that unit, cut toward zero; a text that is refused is read trimmed, with no tab,
                              line feed, form feed, carriage return or space at its ends
",
    );
    out.put(
        b"    yyyy-mm-dd, or with T, t or a space behind it hh:mm:ss, hh:mm:ss.f or hhmmss, and then z, Z, nothing or an offset.
    f is a digit or more, of which nine count. Hours 0 to 23, minutes 0 to 59, seconds 0 to 60.
    Offset: white space or none (behind hhmmss, some), + or -, and hh:mm, hhmm or hh, of up to 23:59. UTC is local time less the offset.
    site_stamp: yyyy-mm-ddThh:mm:ssZ alone, or with .f of 1 to 9 digits, and second 60 only as 23:59:60
        on 30 June or 31 December.
",
    );
}

fn times(out: &mut Out) {
    out.put(
        b"
Times of day, counted from midnight:
  string_to_time_nanoseconds  in nanoseconds
  time64_nanosecond time64_microsecond time32_millisecond time32_second
                              in that unit, cut; a text that is refused is read trimmed, then as an integer of 64 or 32 bits,
                              which is taken as it is
",
    );
    out.put(
        b"    h:mm or hh:mm, or with :ss behind it, or with :ss.f, f being a digit or more, of which nine count; then nothing,
    or one space and AM or PM in either case, with hours 1 to 12. Minutes 0 to 59, seconds 0 to 60.
",
    );
}

fn dates(out: &mut Out) {
    out.put(
        b"
Dates, counted from 1970-01-01:
  date32                      in days; a text that is refused is read trimmed
  date64                      in milliseconds
",
    );
    out.put(
        b"    yyyy-mm-dd, yyyymmdd, or yyyy-m-d with one or two digits for month and day; behind a one-digit form other bytes than
    digits count nothing, up to 10 bytes in all. A sign, a year of four digits or more, -m-d. A longer text with no sign
    is a stamp; for date64 any longer text is.
",
    );
}

fn intervals(out: &mut Out) {
    out.put(
        b"
Intervals, and the unit of a last amount that names none:
  interval                    in months, days and nanoseconds; month, or as --default says
  interval_year_month         in months; year
  interval_day_time           in days and milliseconds; day
  list                        its components, a line each, in order; month, or as --default says
",
    );
    out.put(
        b"    AMOUNT UNIT, once or more, with one white space character between two of them, and one or none between an amount and
    its unit. AMOUNT: a minus or nothing, then digits, or digits, a point and 1 to 15 digits, or a point and 1 to 15 digits.
    No unit comes twice.
    A line of list is unit=NAME whole=W frac=F: the unit, the amount's whole part, its fraction with the sign, times ten to the 15th.
",
    );
    units(out);
}

fn printing(out: &mut Out) {
    out.put(
        b"
An interval as text:
  print_interval              its months, days and nanoseconds, whole numbers of 32, 32 and 64 bits, which are arguments;
                              standard input is not read. A zero is left out, and all zero is 0 months
",
    );
}

fn keypad(out: &mut Out) {
    out.put(
        b"
Keypad texts, all interval texts of one to three components:
  keypad                      that of a number from 0 to 1333319, which is an argument; standard input is not read. Each component is a
                              digit and c, dec, y, mon, w, d, h, m, s, ms, us or nanosecond, no unit twice: fewer components
                              first, then from the left, by digit, then by unit in that order
",
    );
}

fn units(out: &mut Out) {
    out.put(
        b"  UNIT, in capital or small letters:
    century      c cent cents century centuries
    decade       dec decs decade decades
    year         y yr yrs year years
    month        mon mons month months
    week         w week weeks
    day          d day days
    hour         h hr hrs hour hours
    minute       m min mins minute minutes
    second       s sec secs second seconds
    millisecond  ms msec msecs msecond mseconds millisecond milliseconds
    microsecond  us usec usecs usecond useconds microsecond microseconds
    nanosecond   nanosecond nanoseconds
",
    );
}

fn refusals(out: &mut Out) {
    out.put(
        b"\nA text that is refused has no value, but a number and what it means; 8, 9 and 10 tell the byte of the text, from 0, where that
begins, and a text that was an argument, or whose answer goes to a terminal, is shown with a caret below that place:\n",
    );
    // Refusal::Column is of whole columns, which this program does not read, Refusal::Buffer of a buffer too short, which it does not lend,
    // Refusal::Records of records, which it does not convert; and Refusal::Keypad of a number, which is no text.
    for why in [
        Refusal::NotUtf8,
        Refusal::Date,
        Refusal::Separator,
        Refusal::Time,
        Refusal::Tail,
        Refusal::Offset,
        Refusal::Range,
        Refusal::TimeOfDay,
        Refusal::Interval,
        Refusal::RepeatedUnit,
        Refusal::Overflow,
        Refusal::Narrowed,
        Refusal::SiteStamp,
    ] {
        out.put(b"  ");
        refusal(why, out);
        out.put(b"\n");
    }
}
