// Timestamp columns: nanoseconds divided toward zero.
#![tactic(auto)]

ghost use Rattle.std.specs.Prelude.{◌≡◌};
ghost use Rattle.refusal.specs.Attempts.{retried};
ghost use Rattle.refusal.specs.Outcome.{outcome};
ghost use Rattle.stamp_text.specs.Answer.{stamp_nanos};
ghost use Rattle.stamp_column.specs.Answer.{timestamp_column};

use refusal::Refusal;
use std::marker::PhantomData;
use text::trim::trim_pre_and_post_whitespace;
use time_unit::{Microsecond, Millisecond, Nanosecond, Second, TimeUnit};
use timestamp::stamp::string_to_timestamp_nanos;

// A timestamp column, by its unit.
#[derive(Clone, Copy)]
pub struct TimestampType<U> {
    pub unit: PhantomData<U>,
}

pub type TimestampNanosecondType = TimestampType<Nanosecond>;

pub type TimestampMicrosecondType = TimestampType<Microsecond>;

pub type TimestampMillisecondType = TimestampType<Millisecond>;

pub type TimestampSecondType = TimestampType<Second>;

impl<U: TimeUnit> TimestampType<U> {
    pub fn parse(s: &[u8]) -> Result<i64, Refusal>
        ensures { outcome result ≡ timestamp_column U.NANOS s.now }
    {
        Ok(nanos(s)? / i64::from(U::NANOS))
    }
}

// The nanoseconds of the text as given, then of the trimmed text, in a line as in `date_column`.
fn nanos(s: &[u8]) -> Result<i64, Refusal>
    ensures { outcome result ≡ retried stamp_nanos s.now }
{
    string_to_timestamp_nanos(s).or_else(|_| string_to_timestamp_nanos(trim_pre_and_post_whitespace(
        s,
    )))
}
