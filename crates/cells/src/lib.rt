// An answer as a status and cells: the one place that writes what a caller lent, but for the cells of a whole column and a lent buffer.
#![tactic(auto)]

ghost use Rattle.std.specs.Prelude.{◌≡◌};
ghost use Rattle.refusal.specs.Outcome.{outcome, number_of};
ghost use Rattle.rule.specs.Meaning.{day_time_of};
ghost use Rattle.rule.specs.Contribution.{counts};
ghost use Rattle.place.specs.Read.{refusal_of, place_in};
ghost use Rattle.interval.specs.Read.{year_month_outcome, year_month_place, day_time_outcome, day_time_place};
ghost use Rattle.total.specs.Read.{interval_outcome, place_read};
ghost use Rattle.listing.specs.Read.{length_said, place_told};
ghost use Rattle.records.specs.Read.{said, said_of_records};
ghost use Rattle.cells.specs.Cells.{Told, ToldPlace, Tells, in_cells, status_of, index_of};

use count::Months;
use interval::IntervalDayTime;
use listing::ListRefusal;
use parse_column::ColumnRefusal;
use place::IntervalRefusal;
use records::RecordsRefusal;
use refusal::Refusal;
use site::Marked;
use total::Interval;

// A reader's answer of one cell, whatever its width.
pub fn put<T: Copy>(r: Result<T, Refusal>, out: &mut T) -> u8
    ensures { Told (outcome r) result out.old out.new }
{
    match r {
        Ok(value) => {
            *out = value;
            0
        }
        Err(why) => why.number(),
    }
}

// A site stamp's answer: nanoseconds, and 1 with the mark of second 60, else 0.
pub fn put_marked(r: Result<Marked, Refusal>, nanos: &mut i64, leap: &mut u8) -> u8
    ensures { Told (in_cells (outcome r)) result (nanos.old, leap.old) (nanos.new, leap.new) }
{
    match r {
        Ok(x) => {
            *nanos = x.nanos;
            *leap = u8::from(x.leap);
            0
        }
        Err(refusal) => refusal.number(),
    }
}

// A refusal as its number, and the cell that tells where: 8, 9 and 10 have a place, and nothing is written with 1 and 11.
pub fn put_place(why: IntervalRefusal, place: &mut usize) -> u8
    ensures { (result ≡ number_of (refusal_of why)) × ToldPlace (place_in why) place.old place.new }
{
    if let Some(at) = why.place() {
        *place = at;
    }
    why.number()
}

// Each of the next three writes other cells, as the C interface has them, so that they are not one function.
pub fn put_months(r: Result<Months, IntervalRefusal>, months: &mut i32, place: &mut usize) -> u8
    ensures { Told (year_month_outcome r) result months.old months.new × ToldPlace (year_month_place r) place.old place.new }
{
    match r {
        Ok(all) => {
            *months = all.0;
            0
        }
        Err(refusal) => put_place(refusal, place),
    }
}

pub fn put_day_time(
    r: Result<IntervalDayTime, IntervalRefusal>,
    days: &mut i32,
    millis: &mut i32,
    place: &mut usize,
) -> u8
    ensures { Told (day_time_outcome r) result (day_time_of days.old millis.old) (day_time_of days.new millis.new) × ToldPlace (day_time_place r) place.old place.new }
{
    match r {
        Ok(both) => {
            *days = both.days.0;
            *millis = both.millis.0;
            0
        }
        Err(why) => put_place(why, place),
    }
}

pub fn put_interval(
    r: Result<Interval, IntervalRefusal>,
    months: &mut i32,
    days: &mut i32,
    nanos: &mut i64,
    place: &mut usize,
) -> u8
    ensures { Told (interval_outcome r) result (counts months.old days.old nanos.old) (counts months.new days.new nanos.new) × ToldPlace (place_read r) place.old place.new }
{
    match r {
        Ok(interval) => {
            *months = interval.months.0;
            *days = interval.days.0;
            *nanos = interval.nanos.0;
            0
        }
        Err(reason) => put_place(reason, place),
    }
}

// A listing's answer: how many bytes were written.
pub fn put_listed(r: Result<usize, ListRefusal>, length: &mut usize, place: &mut usize) -> u8
    ensures { Told (length_said r) result length.old length.new × ToldPlace (place_told r) place.old place.new }
{
    match r {
        Ok(written) => {
            *length = written;
            0
        }
        Err(ListRefusal::Text(why)) => put_place(why, place),
        Err(ListRefusal::Buffer) => Refusal::Buffer.number(),
    }
}

// A column's answer as a status, and the cell that tells which text was refused.
pub fn put_index(r: Result<(), ColumnRefusal>, index: &mut usize) -> u8
    ensures { Tells r result index.old index.new }
{
    match r {
        Ok(()) => 0,
        Err(ColumnRefusal::Text(why, i)) => {
            *index = i;
            why.number()
        }
        Err(ColumnRefusal::Call(why)) => why.number(),
    }
}

// What a conversion of records answers, as a status.
pub fn status(r: Result<(), Refusal>) -> u8
    ensures { result ≡ status_of (said r) }
{
    let Err(why) = r else { return 0 };
    why.number()
}

// And where a record may stay, the cell that tells which.
pub fn put_record(r: Result<(), RecordsRefusal>, index: &mut usize) -> u8
    ensures { (result ≡ status_of (said_of_records r)) × ToldPlace (index_of (said_of_records r)) index.old index.new }
{
    let Err(why) = r else { return 0 };
    match why {
        RecordsRefusal::Record(first) => {
            *index = first;
            Refusal::Narrowed.number()
        }
        RecordsRefusal::Call(refusal) => refusal.number(),
    }
}
