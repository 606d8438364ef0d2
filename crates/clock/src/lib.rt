// Times of day of the clock: their fields, and the digits of a fraction.
#![tactic(auto)]

ghost use Rattle.std.specs.Prelude.{◌≡◌, cond, ◌&&◌, ◌-◌, ◌^◌, ◌≤◌, ◌<◌, ltb, length, take, pos, None, Some};
ghost use Rattle.text.specs.Digits.{run};
ghost use Rattle.clock.specs.Clock.{in_range, nanos_of, held, nanos_of_day};

use text::byte_at;
use text::digits::{digit, run_end};

// A time of day, with nanoseconds below 1,000,000,000 and a mark. Second 60 is second 59 with the mark. In this order it is 8 bytes without a
// gap, and goes from one function to another in one piece.
#[derive(Clone, Copy)]
pub struct NaiveTime {
    pub hour: u8,
    pub minute: u8,
    pub second: u8,
    pub leap: bool,
    pub nanos: u32,
}

// The digits of a fraction: what they count, and how many they are.
#[derive(Clone, Copy)]
pub struct Secfrac {
    pub nanos: u32,
    pub digits: usize,
}

// The digits that a text begins with, as nanoseconds: nine count, and those behind are passed over.
// Their number, and one product where they end: a unit for each digit would be a division by ten in each turn. By index, since past the end
// of the text there is no digit, so that the loop has one way out for both ends.
pub fn parse_nanos(s: &[u8]) -> Secfrac
    ensures { (result.nanos ≡ nanos_of (take (run s.now) s.now)) × (result.nanos < 1000000000) × (result.digits ≡ run s.now) × (result.digits ≤ length s.now) }
{
    let mut nanos: u32 = 0;
    for i in 0..9 {
        let d = digit(byte_at(s, i));
        if 10 <= d {
            return Secfrac {
                nanos: nanos * scale(i),
                digits: i,
            };
        }
        nanos = nanos * 10 + u32::from(d);
    }
    Secfrac {
        nanos,
        digits: run_end(s, 9),
    }
}

// Ten to the places that i digits leave of nine. By a table, since `pow` would multiply in a loop.
fn scale(i: usize) -> u32
    requires { i < 9 }
    ensures { result ≡ 10 ^ (9 - i) }
{
    match i {
        0 => 1_000_000_000,
        1 => 100_000_000,
        2 => 10_000_000,
        3 => 1_000_000,
        4 => 100_000,
        5 => 10_000,
        6 => 1_000,
        7 => 100,
        _ => 10,
    }
}

// chrono's `NaiveTime::from_hms_nano_opt`, with second 60 held as second 59 and the mark.
pub fn from_hms_nano(hour: u8, min: u8, sec: u8, nano: u32) -> Option<NaiveTime>
    ensures { result ≡ cond (in_range hour min sec && ltb nano 1000000000) (Some (held hour min sec nano)) None }
{
    if 23 < hour || 59 < min || 60 < sec || 1_000_000_000 <= nano {
        return None;
    }
    let leap = sec == 60;
    Some(NaiveTime {
        hour,
        minute: min,
        second: if leap { 59 } else { sec },
        leap,
        nanos: nano,
    })
}

// Nanoseconds since midnight: the mark is a second more.
pub fn nanos_of_day(t: &NaiveTime) -> i64
    ensures { result ≡ pos (nanos_of_day t.now) }
{
    let minutes = i64::from(t.hour) * 60 + i64::from(t.minute);
    let seconds = minutes * 60 + i64::from(t.second) + i64::from(t.leap);
    seconds * 1_000_000_000 + i64::from(t.nanos)
}
