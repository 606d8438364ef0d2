// The site stamp: `2026-03-01T06:30:00Z`, with a point and 1 to 9 digits behind the seconds if need be.
#![tactic(auto)]

ghost use Rattle.std.specs.Prelude.{◌≡◌};
ghost use Rattle.refusal.specs.Outcome.{outcome};
ghost use Rattle.site.specs.Site.{is_leap_day, is_site, site_marked};

use datetime::to_timestamp_nanos;
use refusal::Refusal;
use text::digits::{CAPITAL_T, CAPITAL_Z, digit, two};
use timestamp::stamp::string_to_datetime;

// Nanoseconds since 1970-01-01, and the mark of second 60.
#[derive(Clone, Copy)]
pub struct Marked {
    pub nanos: i64,
    pub leap: bool,
}

// The plain reader's value with the mark, if the text is a site stamp.
pub fn site_stamp(s: &[u8]) -> Result<Marked, Refusal>
    ensures { outcome result ≡ site_marked s.now }
{
    let x = string_to_datetime(s)?;
    let nanos = to_timestamp_nanos(x).ok_or(Refusal::Range)?;
    if is_site(s) {
        Ok(Marked {
            nanos,
            leap: x.time.leap,
        })
    } else {
        Err(Refusal::SiteStamp)
    }
}

// Of a text that the plain reader accepts: whether it is a site stamp.
#[tactic(auto, unfolding(crate::specs::Site::is_site))]
fn is_site(s: &[u8]) -> bool
    ensures { result ≡ is_site s.now }
{
    let Some(t) = parser::with_colons(s) else {
        return false;
    };
    let n = s.len();
    if 30 < n {
        return false;
    }
    if digit(s[10]) != CAPITAL_T || digit(s[n - 1]) != CAPITAL_Z {
        return false;
    }
    t.second != 60 || t.hour == 23 && (t.minute == 59 && is_leap_day(s))
}

// Of a text that begins with a date: whether it is 30 June or 31 December, the ends of months that had leap seconds.
#[tactic(auto, unfolding(crate::specs::Site::is_leap_day))]
fn is_leap_day(s: &[u8]) -> bool
    ensures { result ≡ is_leap_day s.now }
{
    matches!(
        (two(s, 5), two(s, 8)),
        (Some(6), Some(30)) | (Some(12), Some(31))
    )
}
