// Time columns: a time, its nanoseconds divided toward zero; failing a time, the text as given as an integer, taken undivided.
#![tactic(auto)]

ghost use Rattle.std.specs.Prelude.{◌≡◌, ◌≤◌};
ghost use Rattle.std.specs.Int.Signed.{mag, quot_z};
ghost use Rattle.std.specs.Prelude.{pos};
ghost use Rattle.refusal.specs.Outcome.{outcome};

use number::parse::{Integer, parse};
use refusal::Refusal;
use std::marker::PhantomData;
use text::trim::trim_pre_and_post_whitespace;
use time::string_to_time_nanoseconds;
use time_unit::{Microsecond, Millisecond, Nanosecond, Second};
use units::TimeColumn;

pub mod units;

// A time column, by its unit.
#[derive(Clone, Copy)]
pub struct TimeType<C> {
    pub column: PhantomData<C>,
}

pub type Time64NanosecondType = TimeType<Nanosecond>;

pub type Time64MicrosecondType = TimeType<Microsecond>;

pub type Time32MillisecondType = TimeType<Millisecond>;

pub type Time32SecondType = TimeType<Second>;

impl<C: TimeColumn> TimeType<C> {
    // A time; failing that, an integer; failing that, a time once trimmed. Laid into `parse_column`: with a call short times take a tenth more.
    #[inline(always)]
    pub fn parse(s: &[u8]) -> Result<C::Native, Refusal>
        ensures { outcome result ≡ C.reads s.now }
    {
        if let Ok(nanos) = string_to_time_nanoseconds(s) {
            return Ok(in_unit::<C>(nanos));
        }
        if let Some(z) = parse::<C::Native>(s) {
            return Ok(z);
        }
        let nanos = string_to_time_nanoseconds(trim_pre_and_post_whitespace(s))?;
        Ok(in_unit::<C>(nanos))
    }
}

// Nanoseconds of at most a day and a second, in the column's unit. `as`: with `from` the proof wants an equation more for each.
fn in_unit<C: TimeColumn>(nanos: i64) -> C::Native
    requires { mag nanos ≤ 86401000000000 }
    ensures { C.Native.int result ≡ quot_z nanos (pos C.NANOS) }
{
    C::Native::narrow(nanos / C::NANOS as i64).unwrap()
}
