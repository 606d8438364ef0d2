// The parts of the signed form: its hyphens, and the numbers between them.
ghost use Rattle.std.specs.Prelude.{◌≡◌, if◌then◌else◌, ltb, length, Some, None};
ghost use Rattle.ymd.specs.Forms.{to_hyphen, month_day};

use crate::Ymd;
use number::parse::parse;

// The place of the first hyphen: the library's `position`, in a line, as `lines` has it for any byte.
pub fn find_hyphen(s: &[u8]) -> Option<usize>
    ensures { result ≡ (if ltb (to_hyphen s.now) (length s.now) then Some (to_hyphen s.now) else None) }
{
    s.iter().position(|&b| b == b'-')
}

// The date of a year, with a month and a day that the first hyphen parts.
pub fn month_day(year: i32, s: &[u8]) -> Option<Ymd>
    ensures { result ≡ month_day (Some year) (to_hyphen s.now) s.now }
{
    let hyphen = find_hyphen(s)?;
    let month = parse(&s[..hyphen])?;
    let day = parse(&s[hyphen + 1..])?;
    Some(Ymd { year, month, day })
}
