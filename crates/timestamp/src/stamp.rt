// Stamps.
ghost use Rattle.std.specs.Prelude.{◌≡◌, ◌≤◌, drop};
ghost use Rattle.refusal.specs.Outcome.{outcome};
ghost use Rattle.std.specs.Int.Signed.{mag};
ghost use Rattle.datetime.specs.Moment.{moment};
ghost use Rattle.offset.specs.Answer.{offset_of};
ghost use Rattle.stamp_text.specs.Answer.{is_ending, on_offset, at_end, plain_moment, after_date, datetime, stamp_nanos};

use clock::NaiveTime;
use datetime::{NaiveDateTime, to_timestamp_nanos};
use offset::{overflowing_sub_offset, parse_offset};
use refusal::Refusal;
use text::byte_at;
use text::digits::{CAPITAL_T, SMALL_T, SPACE, digit};

// Reads a stamp, and gives its moment in UTC
// * `1997-01-31T09:26:56.123Z`        # RFC 3339
// * `1997-01-31T09:26:56.123-05:00`   # RFC 3339
// * `1997-01-31 09:26:56.123 -05`     # white space before the offset, and hours alone
// * `1997-01-31T09:26:56.123`         # no offset
// * `1997-01-31 09:26:56`             # a space, no fraction
// * `1997-01-31 092656`               # no colons
// * `1997-01-31`                      # only a date
//
// A text that is read is ASCII, but for White_Space before an offset, so UTF-8 is looked at only where a text is refused.
#[tactic(auto, using(stamp_text::proofs::Agreement::read_utf8))]
pub fn string_to_datetime(s: &[u8]) -> Result<NaiveDateTime, Refusal>
    ensures { outcome result ≡ datetime s.now }
{
    // By `match`: of `map_err`, tried, the proof did not close.
    match plain(s) {
        Ok(x) => Ok(x),
        Err(why) => Err(why.of(s)),
    }
}

#[tactic(auto, unfolding(stamp_text::specs::Answer::plain_moment))]
fn plain(s: &[u8]) -> Result<NaiveDateTime, Refusal>
    ensures { outcome result ≡ plain_moment s.now }
{
    let day = parser::date(s).ok_or(Refusal::Date)?;
    after_date(s, day)
}

fn after_date(s: &[u8], day: i64) -> Result<NaiveDateTime, Refusal>
    requires { mag day ≤ 4400000 }
    ensures { outcome result ≡ after_date at_end s.now day }
{
    if s.len() == 10 {
        let time = NaiveTime {
            hour: 0,
            minute: 0,
            second: 0,
            leap: false,
            nanos: 0,
        };
        return Ok(NaiveDateTime { day, time });
    }
    let b = digit(byte_at(s, 10));
    if b != CAPITAL_T && b != SMALL_T && b != SPACE {
        return Err(Refusal::Separator);
    }
    let (time, end) = parser::time(s).ok_or(Refusal::Time)?;
    if is_ending(s, end) {
        Ok(NaiveDateTime { day, time })
    } else {
        less_offset(s, end, day, time)
    }
}

// The local time less the offset that stands at a place.
fn less_offset(s: &[u8], at: usize, day: i64, time: NaiveTime) -> Result<NaiveDateTime, Refusal>
    requires { mag day ≤ 4400000 }
    ensures { outcome result ≡ on_offset (moment day time) (offset_of (drop at s.now)) }
{
    let offset = parse_offset(s, at).ok_or(Refusal::Tail)?;
    let (time, days) = overflowing_sub_offset(time, offset).ok_or(Refusal::Offset)?;
    Ok(NaiveDateTime {
        day: day + days,
        time,
    })
}

// Nothing, or a single z or Z.
fn is_ending(s: &[u8], end: usize) -> bool
    ensures { result ≡ is_ending (drop end s.now) }
{
    matches!(s.get(end..), None | Some([] | [b'Z' | b'z']))
}

pub fn string_to_timestamp_nanos(s: &[u8]) -> Result<i64, Refusal>
    ensures { outcome result ≡ stamp_nanos s.now }
{
    let x = string_to_datetime(s)?;
    to_timestamp_nanos(x).ok_or(Refusal::Range)
}
