// An interval as text: whole months, days and nanoseconds, which every reader of months, days and nanoseconds reads back.
#![tactic(auto)]

ghost use Rattle.std.specs.Prelude.{◌≤◌, length};
ghost use Rattle.buffer.specs.Buffer.{Put};
ghost use Rattle.buffer.specs.Written.{Written};
ghost use Rattle.refusal.specs.Outcome.{accepted, outcome};
ghost use Rattle.rule.specs.Contribution.{counts};
ghost use Rattle.total.specs.Read.{counts_of};
ghost use Rattle.interval_text.specs.Text.{interval_text};

mod parts;

use buffer::put;
use parts::put_part;
use refusal::Refusal;
use total::Interval;

// The text of three counts, put into a buffer from its front on, as `buffer::put` puts bytes.
#[tactic(auto, using(crate::proofs::Longest::held))]
fn put_counts(months: i32, days: i32, nanos: i64, buffer: &mut [u8]) -> usize
    ensures text { Put 0 (interval_text (counts months days nanos)) buffer.old buffer.new result }
    ensures short { length (interval_text (counts months days nanos)) ≤ 68 }
{
    let at = put_part(i64::from(months), b" months", buffer, 0);
    let at = put_part(i64::from(days), b" days", buffer, at);
    let at = put_part(nanos, b" nanoseconds", buffer, at);
    if at == 0 {
        return put(b"0 months", buffer, at);
    }
    at
}

// The same of an interval.
fn put_interval(interval: Interval, buffer: &mut [u8]) -> usize
    ensures text { Put 0 (interval_text (counts_of interval)) buffer.old buffer.new result }
    ensures short { length (interval_text (counts_of interval)) ≤ 68 }
{
    put_counts(interval.months.0, interval.days.0, interval.nanos.0, buffer)
}

// The text written into a buffer, and its length; the rest of the buffer is kept. 14 where it is too short, and then nothing is written.
pub fn write_interval(interval: Interval, buffer: &mut [u8]) -> Result<usize, Refusal>
    ensures { Written (accepted (interval_text (counts_of interval))) (outcome result) buffer.old buffer.new }
{
    // Into no room at all: the length is known before a byte is written.
    let len = put_interval(interval, &mut []);
    if buffer.len() < len {
        return Err(Refusal::Buffer);
    }
    Ok(put_interval(interval, buffer))
}
