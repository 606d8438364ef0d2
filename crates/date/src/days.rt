// Days of dates.
ghost use Rattle.std.specs.Prelude.{◌≡◌, ◌-◌, length, get_or};
ghost use Rattle.refusal.specs.Outcome.{accepted, and_then, outcome};
ghost use Rattle.text.specs.Digits.{is_digit};
ghost use Rattle.stamp_text.specs.Answer.{datetime};
ghost use Rattle.date.specs.Answer.{signed_day, on_day, plain_day, day_named, date_days};

use calendar::days_from_ymd;
use refusal::Refusal;
use text::digits::digit;
use timestamp::stamp::string_to_datetime;

// The day that a text names, counted from 1970-01-01: of a signed date, of a date of at most 10 bytes, or of a stamp.
#[tactic(auto, unfolding(crate::specs::Answer::plain_day))]
pub fn parse_date(s: &[u8]) -> Result<i64, Refusal>
    ensures { outcome result ≡ day_named s.now }
{
    match s {
        [b'+' | b'-', ..] => of_text(s, extended_day(s)),
        _ if s.len() <= 10 => of_text(s, ymd::short_day(s)),
        _ => Ok(string_to_datetime(s)?.day),
    }
}

// The outcome of a text, by the day that was found. Bytes that are ignored behind a date are no digits, so that an accepted text which
// ends in a digit is ASCII: UTF-8 is looked at in the others alone.
#[inline]
#[tactic(auto, using(crate::proofs::Agreement::read_utf8))]
fn of_text(s: &[u8], day: Option<i64>) -> Result<i64, Refusal>
    requires { on_day day ≡ plain_day s.now }
    ensures { outcome result ≡ day_named s.now }
{
    let Some(z) = day else {
        return Err(Refusal::Date.of(s));
    };
    if ends_in_digit(s) || utf8::is_utf8(s) {
        Ok(z)
    } else {
        Err(Refusal::NotUtf8)
    }
}

fn ends_in_digit(s: &[u8]) -> bool
    ensures { result ≡ is_digit (get_or s.now (length s.now - 1) 0) }
{
    match s {
        [.., last] => digit(*last) < 10,
        [] => false,
    }
}

fn extended_day(s: &[u8]) -> Option<i64>
    ensures { result ≡ signed_day s.now }
{
    let x = ymd::parse_extended_ymd(s)?;
    days_from_ymd(x.year, x.month, x.day)
}

// Days since 1970-01-01.
pub fn parse_date_to_days(s: &[u8]) -> Result<i32, Refusal>
    ensures { outcome result ≡ date_days s.now }
{
    number::checked::narrow(parse_date(s)?).ok_or(Refusal::Range)
}
