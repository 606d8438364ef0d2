// Answers as lines of text, put behind those that are held.
use crate::names::Reader;
use crate::{Asked, Status, answer};
use count::Months;
use interval::IntervalDayTime;
use interval_text::write_interval;
use keypad::keypad_text;
use listing::ListRefusal;
use place::IntervalRefusal;
use refusal::Refusal;
use room::Room;
use site::Marked;
use total::Interval;

pub type Out = Room<65536>;

// A refused text is an answer, no failure of the program: no Result, whose error would go up.
#[derive(Clone, Copy)]
pub enum Outcome {
    Read,
    // With the place where the text goes wrong, if that is told.
    Refused(Option<usize>),
}

impl Outcome {
    pub fn status(self) -> Status {
        match self {
            Outcome::Read => Status::Read,
            Outcome::Refused(_) => Status::Refused,
        }
    }
}

// The line that answers a text, or says that it is longer than is read; its number in front, if asked.
pub fn line(asked: Asked, number: u64, text: Option<&[u8]>, out: &mut Out) -> Outcome {
    put_line_number(asked.number, number, out);
    let outcome = match text {
        Some(text) => answered(asked.reader, text, out),
        None => {
            out.put(b"not read: longer than 65536 bytes");
            Outcome::Refused(None)
        }
    };
    out.put(b"\n");
    outcome
}

// The line of an interval that is printed; its number in front, if asked.
pub fn printed(interval: Interval, number: bool, out: &mut Out) -> Outcome {
    put_line_number(number, 1, out);
    // The longest text has 68 bytes.
    let mut buffer = [0u8; 68];
    let outcome = written(write_interval(interval, &mut buffer), &buffer, out);
    out.put(b"\n");
    outcome
}

// The line of a keypad text; its number in front, if asked.
pub fn keypad(k: u64, number: bool, out: &mut Out) -> Outcome {
    put_line_number(number, 1, out);
    // The longest text has 21 bytes.
    let mut buffer = [0u8; 21];
    let outcome = written(keypad_text(k, &mut buffer), &buffer, out);
    out.put(b"\n");
    outcome
}

// The text that a buffer begins with.
fn written(r: Result<usize, Refusal>, buffer: &[u8], out: &mut Out) -> Outcome {
    match r {
        Ok(length) => put_text(buffer.get(..length).unwrap_or(buffer), out),
        Err(why) => refused_whole(why, out),
    }
}

fn put_line_number(asked: bool, number: u64, out: &mut Out) {
    if asked {
        out.put_number(number);
        out.put(b": ");
    }
}

// Texts with the line ends of another system are refused for what does not show.
fn answered(reader: Reader, text: &[u8], out: &mut Out) -> Outcome {
    let outcome = answer::of(reader, text, out);
    if let (Outcome::Refused(_), [.., b'\r']) = (outcome, text) {
        out.put(b" (the text ends in a carriage return)");
    }
    outcome
}

// A count of either width, with its unit behind it.
pub fn count<Z: Into<i64>>(r: Result<Z, Refusal>, unit: &[u8], out: &mut Out) -> Outcome {
    match r {
        Ok(z) => {
            put_count(z, unit, out);
            Outcome::Read
        }
        Err(why) => refused_whole(why, out),
    }
}

// A count, and the mark of second 60 where it is set.
pub fn marked(r: Result<Marked, Refusal>, unit: &[u8], out: &mut Out) -> Outcome {
    match r {
        Ok(x) => {
            put_count(x.nanos, unit, out);
            if x.leap {
                out.put(b", leap second");
            }
            Outcome::Read
        }
        Err(why) => refused_whole(why, out),
    }
}

// An interval of any form.
pub fn interval<I: Counted>(r: Result<I, IntervalRefusal>, out: &mut Out) -> Outcome {
    match r {
        Ok(interval) => {
            interval.put(out);
            Outcome::Read
        }
        Err(why) => refused_at(why, out),
    }
}

// The lines that a buffer begins with; the last line feed is left out, since one ends each answer.
pub fn listed(r: Result<usize, ListRefusal>, buffer: &[u8], out: &mut Out) -> Outcome {
    match r {
        Ok(length) => put_text(
            buffer.get(..length.saturating_sub(1)).unwrap_or(buffer),
            out,
        ),
        Err(ListRefusal::Text(why)) => refused_at(why, out),
        Err(ListRefusal::Buffer) => refused_whole(Refusal::Buffer, out),
    }
}

fn put_text(text: &[u8], out: &mut Out) -> Outcome {
    out.put(text);
    Outcome::Read
}

// What is put as counts, each with its unit.
pub trait Counted {
    fn put(self, out: &mut Out);
}

impl Counted for Months {
    fn put(self, out: &mut Out) {
        put_count(self.0, b" months", out);
    }
}

impl Counted for Interval {
    fn put(self, out: &mut Out) {
        put_count(self.months.0, b" months ", out);
        put_count(self.days.0, b" days ", out);
        put_count(self.nanos.0, b" nanoseconds", out);
    }
}

impl Counted for IntervalDayTime {
    fn put(self, out: &mut Out) {
        put_count(self.days.0, b" days ", out);
        put_count(self.millis.0, b" milliseconds", out);
    }
}

fn put_count<Z: Into<i64>>(z: Z, unit: &[u8], out: &mut Out) {
    out.put_signed(z.into());
    out.put(unit);
}

fn refused(why: Refusal, out: &mut Out) {
    out.put(b"refused ");
    refusal(why, out);
}

// One that has no place.
fn refused_whole(why: Refusal, out: &mut Out) -> Outcome {
    refused(why, out);
    Outcome::Refused(None)
}

// The same with the place behind it, where there is one.
fn refused_at(why: IntervalRefusal, out: &mut Out) -> Outcome {
    refused(why.refusal(), out);
    let place = why.place();
    if let Some(place) = place {
        out.put(b", at byte ");
        out.put_number(place as u64);
    }
    Outcome::Refused(place)
}

// A refusal's number and what it means.
pub fn refusal(why: Refusal, out: &mut Out) {
    out.put_number(u64::from(why.number()));
    out.put(b": ");
    out.put(meaning(why));
}

fn meaning(why: Refusal) -> &'static [u8] {
    match why {
        Refusal::NotUtf8 => b"the bytes are not well-formed UTF-8",
        Refusal::Date => {
            b"no date: no shape of one, no day of the calendar, or a stamp of fewer than 10 bytes"
        }
        Refusal::Separator => b"byte 10 of a longer stamp is not T, t or a space",
        Refusal::Time => b"no time part of a stamp, or a field of it is out of range",
        Refusal::Tail => {
            b"bytes remain after the time that are neither a single final z or Z nor of an offset's shape"
        }
        Refusal::Offset => b"the hours or minutes of an offset are out of range",
        Refusal::Range => {
            b"the nanoseconds do not fit 64 signed bits, or the day number does not fit 32"
        }
        Refusal::TimeOfDay => {
            b"a time-of-day text is neither a time nor, for a time column, an integer of its width"
        }
        Refusal::Interval => b"an interval text has no division",
        Refusal::RepeatedUnit => b"a unit comes twice",
        Refusal::Overflow => b"a contribution or a running total does not fit",
        Refusal::Narrowed => b"the narrowed interval form cannot hold the result",
        Refusal::SiteStamp => b"the plain stamp reader accepts the text, but it is no site stamp",
        // No reader of this program gives it.
        Refusal::Column => {
            b"the ends of a column's texts fall or pass the bytes, or there are fewer cells than ends"
        }
        // The program's buffers are long enough.
        Refusal::Buffer => b"the buffer is too short",
        // The program converts no records.
        Refusal::Records => b"the bytes are no whole number of records",
        Refusal::Keypad => b"no keypad text has this number",
    }
}
