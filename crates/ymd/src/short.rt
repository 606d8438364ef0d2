// The unsigned forms: without hyphens, and with them.
ghost use Rattle.std.specs.Prelude.{◌≡◌, if◌then◌else◌, option_map, pos, Some, None};
ghost use Rattle.calendar.specs.Calendar.{civil};
ghost use Rattle.clock.specs.Grammar.{no_digits};
ghost use Rattle.ymd.specs.Forms.{four_digits, four_at, compact_day, last_day, hyphen_day};
ghost use Rattle.ymd.specs.Helpers.{one_or_two};

use calendar::days_from_ymd;
use text::digits::{HYPHEN, digit, two};

// yyyymmdd
pub fn compact_day(s: &[u8]) -> Option<i64>
    ensures { result ≡ compact_day s.now }
{
    if s.len() != 8 {
        return None;
    }
    of_fields(four(s)?, two(s, 4)?, two(s, 6)?)
}

// yyyy-m-d, with one or two digits for the month and the day. The byte behind the year is seen to be a hyphen.
pub fn hyphen_day(s: &[u8]) -> Option<i64>
    ensures { result ≡ hyphen_day s.now }
{
    let year = four(s)?;
    let (month, rest) = one_or_two(s.get(5..)?)?;
    match rest {
        [h, rest @ ..] if digit(*h) == HYPHEN => last_day(year, month, rest),
        _ => None,
    }
}

// One or two digits, and no digit after them.
fn last_day(year: u16, month: u8, s: &[u8]) -> Option<i64>
    ensures { result ≡ last_day (pos year) month s.now }
{
    let (day, rest) = one_or_two(s)?;
    if no_digits(rest) {
        of_fields(year, month, day)
    } else {
        None
    }
}

// `as`: with `from` the proof wants an equation more for each.
fn of_fields(year: u16, month: u8, day: u8) -> Option<i64>
    ensures { result ≡ civil (pos year) month day }
{
    days_from_ymd(year as i32, month as u32, day as u32)
}

// The year of four digits that a text begins with.
fn four(s: &[u8]) -> Option<u16>
    ensures { result ≡ (if four_digits s.now then Some (four_at s.now) else None) }
{
    Some(u16::from(two(s, 0)?) * 100 + u16::from(two(s, 2)?))
}

// The number of the one or two digits that a text begins with, and what is behind them.
fn one_or_two(s: &[u8]) -> Option<(u8, &[u8])>
    ensures { option_map (λ x. (x.0, x.1.now)) result ≡ one_or_two s.now }
{
    if let Some(both) = two(s, 0) {
        return Some((both, &s[2..]));
    }
    match s {
        [one, rest @ ..] if digit(*one) < 10 => Some((digit(*one), rest)),
        _ => None,
    }
}

// No byte is a digit.
fn no_digits(s: &[u8]) -> bool
    ensures { result ≡ no_digits s.now }
{
    s.iter().all(|&b| 10 <= digit(b))
}
