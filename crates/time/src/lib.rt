// Times of day.
#![tactic(auto)]

ghost use Rattle.std.specs.Prelude.{◌≡◌, ◌<◌, IfSome};
ghost use Rattle.refusal.specs.Outcome.{outcome};
ghost use Rattle.time.specs.Answer.{half, body, hour_of, fraction_of, after_minutes, after_hour, from_hour, time_of_day, time_nanos};

use clock::{NaiveTime, nanos_of_day};
use refusal::Refusal;
use text::digits::{COLON, POINT, digit, two};

// The half of the day that a time names.
#[derive(Clone, Copy, Debug, PartialEq, Eq)]
pub enum Half {
    Am,
    Pm,
}

// Nanoseconds since midnight
// * `09:26:56.123 AM`
// * `23:59:59`
// * `6:00 pm`
//
// A text that is read is ASCII, so UTF-8 is looked at only where a text is refused.
#[tactic(auto, using(crate::proofs::Agreement::read_utf8))]
pub fn string_to_time_nanoseconds(s: &[u8]) -> Result<i64, Refusal>
    ensures { outcome result ≡ time_nanos s.now }
{
    match string_to_time(s) {
        Some(t) => Ok(nanos_of_day(&t)),
        None => Err(Refusal::TimeOfDay.of(s)),
    }
}

#[tactic(auto, unfolding(crate::specs::Answer::time_of_day))]
pub fn string_to_time(s: &[u8]) -> Option<NaiveTime>
    ensures { result ≡ time_of_day s.now }
{
    let (body, half) = split_half(s);
    from_hour(body, half)
}

// AM or PM in either case behind one space, at the end of at least 4 bytes, and the text before it.
fn split_half(s: &[u8]) -> (&[u8], Option<Half>)
    ensures body { result.0.now ≡ body (half s.now) s.now }
    ensures half { result.1 ≡ half s.now }
{
    match s {
        [_, .., b' ', b'A' | b'a', b'M' | b'm'] => (&s[..s.len() - 3], Some(Half::Am)),
        [_, .., b' ', b'P' | b'p', b'M' | b'm'] => (&s[..s.len() - 3], Some(Half::Pm)),
        _ => (s, None),
    }
}

// One or two hour digits and a colon.
fn from_hour(s: &[u8], half: Option<Half>) -> Option<NaiveTime>
    ensures { result ≡ from_hour half s.now }
{
    match s {
        [a, b, rest @ ..] if digit(*a) < 10 && digit(*b) == COLON => {
            after_hour(rest, digit(*a), half)
        }
        [_, _, c, rest @ ..] if digit(*c) == COLON => after_hour(rest, two(s, 0)?, half),
        _ => None,
    }
}

// Two minute digits.
fn after_hour(s: &[u8], hour: u8, half: Option<Half>) -> Option<NaiveTime>
    ensures { result ≡ after_hour half hour s.now }
{
    let minute = two(s, 0)?;
    after_minutes(&s[2..], hour, minute, half)
}

// Nothing, or a colon and two second digits, and perhaps a fraction.
fn after_minutes(s: &[u8], hour: u8, minute: u8, half: Option<Half>) -> Option<NaiveTime>
    ensures { result ≡ after_minutes half hour minute s.now }
{
    match s {
        [] => clock::from_hms_nano(hour_of(hour, half)?, minute, 0, 0),
        [colon, rest @ ..] if digit(*colon) == COLON => {
            let second = two(rest, 0)?;
            let nanos = fraction_of(&rest[2..])?;
            clock::from_hms_nano(hour_of(hour, half)?, minute, second, nanos)
        }
        _ => None,
    }
}

// Nothing, or a point and one or more digits to the end.
fn fraction_of(s: &[u8]) -> Option<u32>
    ensures value { result ≡ fraction_of s.now }
    ensures below { IfSome result (λ n. n < 1000000000) }
{
    let [point, digits @ ..] = s else {
        return Some(0);
    };
    if digit(*point) != POINT {
        return None;
    }
    let fraction = clock::parse_nanos(digits);
    if fraction.digits == 0 || fraction.digits < digits.len() {
        return None;
    }
    Some(fraction.nanos)
}

// The hour of the day: 12 AM is 0, 12 PM is 12.
fn hour_of(hour: u8, half: Option<Half>) -> Option<u8>
    ensures { result ≡ hour_of half hour }
{
    match half {
        None => Some(hour),
        Some(_) if hour < 1 || 12 < hour => None,
        Some(Half::Am) => Some(hour % 12),
        Some(Half::Pm) => Some(hour % 12 + 12),
    }
}
