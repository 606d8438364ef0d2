// Arrow's records of intervals, slices of them converted between two lent buffers: document 02's No. 8.
#![tactic(auto)]

ghost use Rattle.std.specs.Prelude.{◌≡◌, length};
ghost use Rattle.records.specs.Records.{Converts, ConvertsBack};
ghost use Rattle.records.specs.Slices.{Means};
ghost use Rattle.records.specs.Answer.{month_day_nanos, day_times};
ghost use Rattle.records.specs.Read.{Answers, said, said_of_records};

use refusal::Refusal;

mod convert;
mod record;
mod slices;

// Why records are not converted: the index of the first that has no old record, or why none was read.
#[derive(Clone, Copy, Debug, PartialEq, Eq)]
pub enum RecordsRefusal {
    Record(usize),
    Call(Refusal),
}

// Every day-time record as a month-day-nano record, into the first bytes of the other buffer.
#[tactic(auto, using(crate::proofs::Agreement::new_meant))]
pub fn day_time_to_month_day_nano(from: &[u8], to: &mut [u8]) -> Result<(), Refusal>
    ensures computed { Answers (month_day_nanos from.now (length to.old)) (said result) to.old to.new }
    ensures meant { Means Converts 8 16 from.now (length to.old) (month_day_nanos from.now (length to.old)) }
{
    let (records, rest) = from.as_chunks::<8>();
    if !rest.is_empty() {
        return Err(Refusal::Records);
    }
    if to.len() / 16 < records.len() {
        return Err(Refusal::Buffer);
    }
    slices::store_month_day_nanos(records, to);
    Ok(())
}

// Every month-day-nano record as a day-time record, or the first that has none. The records are read twice, so that no byte is written
// while one may still be refused.
#[tactic(auto, using(crate::proofs::Agreement::old_meant))]
pub fn month_day_nano_to_day_time(from: &[u8], to: &mut [u8]) -> Result<(), RecordsRefusal>
    ensures computed { Answers (day_times from.now (length to.old)) (said_of_records result) to.old to.new }
    ensures meant { Means ConvertsBack 16 8 from.now (length to.old) (day_times from.now (length to.old)) }
{
    let (records, tail) = from.as_chunks::<16>();
    if !tail.is_empty() {
        return Err(RecordsRefusal::Call(Refusal::Records));
    }
    if to.len() / 8 < records.len() {
        return Err(RecordsRefusal::Call(Refusal::Buffer));
    }
    if let Some(index) = slices::first_that_stays(records) {
        return Err(RecordsRefusal::Record(index));
    }
    slices::store_day_times(records, to);
    Ok(())
}
