// Offsets of local time: their texts, behind the time of a stamp, and the time in UTC.
#![tactic(auto)]

ghost use Rattle.std.specs.Prelude.{◌≡◌, ◌≤◌, length, drop};
ghost use Rattle.offset.specs.Answer.{drop_white, minute_of, numoffset, offset_of, sub_offset};

use clock::NaiveTime;
use text::digits::two;
use white::white_at;

// An offset as a text writes it, in range or not.
#[derive(Clone, Copy)]
pub struct Offset {
    pub minus: bool,
    pub hour: u8,
    pub minute: u8,
}

// Parses the offset that stands at a place, up to the end of the text; white space before it is dropped
// - `+04:00`
// - `-0130`
// - ` +04`
#[tactic(auto, unfolding(crate::specs::Answer::numoffset))]
pub fn parse_offset(s: &[u8], at: usize) -> Option<Offset>
    ensures { result ≡ offset_of (drop at s.now) }
{
    numoffset(s.get(skip_white(s, at)..)?)
}

// The place behind the white space at a place.
fn skip_white(s: &[u8], from: usize) -> usize
    ensures { drop result s.now ≡ drop_white 0 (drop from s.now) }
{
    let mut i = from;
    loop {
        let n = white_at(s, i);
        if n == 0 {
            return i;
        }
        i += n;
    }
}

// A sign and hours, and minutes behind them.
#[tactic(auto, unfolding(crate::specs::Answer::numoffset))]
fn numoffset(t: &[u8]) -> Option<Offset>
    ensures { result ≡ numoffset t.now }
{
    let [sign, digits @ ..] = t else {
        return None;
    };
    if *sign != b'+' && *sign != b'-' {
        return None;
    }
    let hour = two(digits, 0)?;
    let minute = minute(&digits[2..])?;
    Some(Offset {
        minus: *sign == b'-',
        hour,
        minute,
    })
}

// What stands behind the hours: nothing, `mm` or `:mm`.
#[tactic(auto, unfolding(crate::specs::Answer::minute_of))]
fn minute(t: &[u8]) -> Option<u8>
    ensures { result ≡ minute_of t.now }
{
    match t {
        [] => Some(0),
        [_, _] => two(t, 0),
        [b':', _, _] => two(t, 1),
        _ => None,
    }
}

// chrono's `NaiveTime::overflowing_sub_offset`: the time less an offset, and the days from its own to that of the result. None where the
// offset is out of range. A day more is added first, so that no number is negative.
pub fn overflowing_sub_offset(t: NaiveTime, o: Offset) -> Option<(NaiveTime, i64)>
    ensures { result ≡ sub_offset t o }
{
    if 23 < o.hour || 59 < o.minute {
        return None;
    }
    let local = 1440 + u32::from(t.hour) * 60 + u32::from(t.minute);
    let offset = u32::from(o.hour) * 60 + u32::from(o.minute);
    let utc = if o.minus {
        local + offset
    } else {
        local - offset
    };
    let minute = utc % 1440;
    let time = NaiveTime {
        hour: (minute / 60) as u8,
        minute: (minute % 60) as u8,
        second: t.second,
        leap: t.leap,
        nanos: t.nanos,
    };
    Some((time, i64::from(utc / 1440) - 1))
}
