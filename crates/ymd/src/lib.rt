// Dates that are no stamps: with a sign, or of at most 10 bytes.
#![tactic(auto)]

ghost use Rattle.std.specs.Prelude.{◌≡◌};
ghost use Rattle.ymd.specs.Forms.{extended_ymd, short_day};

use text::byte_at;
use text::digits::{HYPHEN, digit};

mod extended;
mod short;

// The year, the month and the day that a text writes, whether the calendar has them or not.
#[derive(Clone, Copy, Debug, PartialEq, Eq)]
pub struct Ymd {
    pub year: i32,
    pub month: u32,
    pub day: u32,
}

// The signed form, ISO 8601's expanded representation, as `+10999-12-31`, `-0012-05-06`: the sign and the year up to the first hyphen, the
// month up to the next, and the day, not yet whether the calendar has it.
#[tactic(auto, using(text::proofs::Parts::rest), unfolding(crate::specs::Forms::extended_ymd))]
pub fn parse_extended_ymd(s: &[u8]) -> Option<Ymd>
    ensures { result ≡ extended_ymd s.now }
{
    let hyphen = extended::find_hyphen(s.get(1..)?)?;
    if hyphen < 4 {
        return None;
    }
    let year = number::parse::parse(&s[..hyphen + 1])?;
    extended::month_day(year, &s[hyphen + 2..])
}

// The unsigned forms of at most 10 bytes: `20200101`, `2020-01-01`, `2020-1-1`.
pub fn short_day(s: &[u8]) -> Option<i64>
    ensures { result ≡ short_day s.now }
{
    if digit(byte_at(s, 4)) == HYPHEN {
        short::hyphen_day(s)
    } else {
        short::compact_day(s)
    }
}
