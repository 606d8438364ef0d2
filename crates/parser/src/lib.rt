// The Rust's `TimestampParser`, over the text itself: its bytes less 48, wrapping, by their places.
#![tactic(auto)]

ghost use Rattle.std.specs.Prelude.{◌≡◌, not, ◌&&◌, drop, slice_index};
ghost use Rattle.text.specs.Digits.{is_digit};
ghost use Rattle.stamp_text.specs.Answer.{day_of, basic_time, after_seconds, time_of};
ghost use Rattle.parser.specs.Read.{fields_of, basic_fields_of, ends_at};

use calendar::days_from_ymd;
use clock::{NaiveTime, from_hms_nano, parse_nanos};
use text::byte_at;
use text::digits::{COLON, HYPHEN, POINT, digit, two};

// Hour, minute and second as a text writes them, of two digits each.
#[derive(Clone, Copy)]
pub struct Fields {
    pub hour: u8,
    pub minute: u8,
    pub second: u8,
}

// Parses a date of the form `1997-01-31`. `as`: with `from` the proof wants an equation more for each.
#[tactic(auto, unfolding(stamp_text::specs::Answer::day_of))]
pub fn date(s: &[u8]) -> Option<i64>
    ensures { result ≡ day_of s.now }
{
    if s.len() < 10 {
        return None;
    }
    let century = two(s, 0)?;
    let year = two(s, 2)?;
    let month = two(s, 5)?;
    let day_of_month = two(s, 8)?;
    if digit(s[4]) != HYPHEN || digit(s[7]) != HYPHEN {
        return None;
    }
    let whole_year = century as u32 * 100 + year as u32;
    days_from_ymd(whole_year as i32, month as u32, day_of_month as u32)
}

// Parses a time of any of the forms, from byte 11 on
// - `09:26:56`
// - `09:26:56.123`
// - `092656`
// with the place where it ends.
#[tactic(auto, unfolding(stamp_text::specs::Answer::time_of))]
pub fn time(s: &[u8]) -> Option<(NaiveTime, usize)>
    ensures { ends_at s.now result ≡ time_of (drop 11 s.now) }
{
    match with_colons(s) {
        Some(fields) => after_seconds(s, fields),
        None => basic(s),
    }
}

// `09:26:56` from byte 11 on.
pub fn with_colons(s: &[u8]) -> Option<Fields>
    ensures { result ≡ fields_of (drop 11 s.now) }
{
    if s.len() < 19 {
        return None;
    }
    let hour = two(s, 11)?;
    let minute = two(s, 14)?;
    let second = two(s, 17)?;
    if digit(s[13]) != COLON || digit(s[16]) != COLON {
        return None;
    }
    Some(Fields {
        hour,
        minute,
        second,
    })
}

// What follows the seconds, from byte 19 on: a point and digits, of which all are passed over, or no fraction.
#[tactic(auto, unfolding(clock::specs::Clock::nanos_of, text::specs::Digits::value))]
fn after_seconds(s: &[u8], t: Fields) -> Option<(NaiveTime, usize)>
    ensures { ends_at s.now result ≡ after_seconds t.hour t.minute t.second (drop 19 s.now) }
{
    if digit(byte_at(s, 19)) != POINT {
        return Some((from_hms_nano(t.hour, t.minute, t.second, 0)?, 19));
    }
    let fraction = parse_nanos(&s[20..]);
    if fraction.digits == 0 {
        return None;
    }
    let time = from_hms_nano(t.hour, t.minute, t.second, fraction.nanos)?;
    Some((time, 20 + fraction.digits))
}

// A time without colons.
#[tactic(auto, unfolding(clock::specs::Clock::nanos_of, text::specs::Digits::value))]
fn basic(s: &[u8]) -> Option<(NaiveTime, usize)>
    ensures { ends_at s.now result ≡ basic_time (drop 11 s.now) }
{
    let t = without_colons(s)?;
    Some((from_hms_nano(t.hour, t.minute, t.second, 0)?, 17))
}

// `092656` from byte 11 on, with no digit in the two bytes after it.
fn without_colons(s: &[u8]) -> Option<Fields>
    ensures { result ≡ basic_fields_of (drop 11 s.now) }
{
    let hour = two(s, 11)?;
    let minute = two(s, 13)?;
    let second = two(s, 15)?;
    if !no_digit_follows(s) {
        return None;
    }
    Some(Fields {
        hour,
        minute,
        second,
    })
}

// No digit in the two bytes after `092656`.
fn no_digit_follows(s: &[u8]) -> bool
    ensures { result ≡ (not (is_digit (slice_index s.now 17)) && not (is_digit (slice_index s.now 18))) }
{
    10 <= digit(byte_at(s, 17)) && 10 <= digit(byte_at(s, 18))
}
