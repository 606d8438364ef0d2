// Date columns.
#![tactic(auto)]

ghost use Rattle.std.specs.Prelude.{◌≡◌, ◌≤◌, length, pos, ◌*ℤ◌};
ghost use Rattle.std.specs.Int.Signed.{mag};
ghost use Rattle.date.specs.Answer.{day_named};
ghost use Rattle.number.specs.Widths.{floor};
ghost use Rattle.refusal.specs.Outcome.{accepted, and_then, outcome};
ghost use Rattle.stamp_text.specs.Answer.{datetime};
ghost use Rattle.datetime.specs.Moment.{instant};
ghost use Rattle.date_column.specs.Answer.{millis, date32, date64};

use clock::nanos_of_day;
use date::days::{parse_date, parse_date_to_days};
use datetime::NaiveDateTime;
use refusal::Refusal;
use text::trim::trim_pre_and_post_whitespace;
use timestamp::stamp::string_to_datetime;

// Two types of their own: one is tried again once trimmed and holds 32 bits, the other never trims and reads one of two readers, so that
// a generic type would only forward to a trait's two methods.
#[derive(Clone, Copy)]
pub struct Date32Type {}

#[derive(Clone, Copy)]
pub struct Date64Type {}

impl Date32Type {
    // The days of the text as given, then of the trimmed text, in a line as in `stamp_column`: one function over the reader would be longer.
    pub fn parse(s: &[u8]) -> Result<i32, Refusal>
        ensures { outcome result ≡ date32 s.now }
    {
        parse_date_to_days(s).or_else(|_| parse_date_to_days(trim_pre_and_post_whitespace(s)))
    }
}

impl Date64Type {
    // A date up to 10 bytes, a stamp beyond that; never trimmed.
    pub fn parse(s: &[u8]) -> Result<i64, Refusal>
        ensures { outcome result ≡ date64 s.now }
    {
        if s.len() <= 10 {
            day_millis(s)
        } else {
            stamp_millis(s)
        }
    }
}

fn day_millis(s: &[u8]) -> Result<i64, Refusal>
    requires { length s.now ≤ 10 }
    ensures { outcome result ≡ and_then (day_named s.now) (λ z. accepted (z *ℤ pos 86400000)) }
{
    Ok(parse_date(s)? * 86_400_000)
}

fn stamp_millis(s: &[u8]) -> Result<i64, Refusal>
    ensures { outcome result ≡ and_then (datetime s.now) (λ m. millis (instant m)) }
{
    Ok(timestamp_millis(string_to_datetime(s)?))
}

// Milliseconds of a day and a time of it, rounded down; the nanoseconds need not fit 64 bits.
fn timestamp_millis(dt: NaiveDateTime) -> i64
    requires { mag dt.day ≤ 4400000 }
    ensures { result ≡ floor (instant dt) 1000000 }
{
    dt.day * 86_400_000 + nanos_of_day(&dt.time) / 1_000_000
}
