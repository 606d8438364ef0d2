// A column's texts read at once: document 02's whole columns. The texts are read twice, once to see that all are accepted and once to
// store their values, so that no cell is touched while one may still be refused.
#![tactic(auto)]

ghost use Rattle.std.specs.Prelude.{◌≡◌, length};
ghost use Rattle.column.specs.Columns.{column as reads};
ghost use Rattle.refusal.specs.Outcome.{outcome};
ghost use Rattle.whole_column.specs.Answer.{whole};
ghost use Rattle.parse_column.specs.Read.{Answers};

use column::Column;
use date_column::{Date32Type, Date64Type};
use refusal::Refusal;
use stamp_column::{
    TimestampMicrosecondType, TimestampMillisecondType, TimestampNanosecondType,
    TimestampSecondType,
};
use texts::Texts;
use time_column::{
    Time32MillisecondType, Time32SecondType, Time64MicrosecondType, Time64NanosecondType,
};

pub mod numbers;
mod texts;

// Why a column has no values: the first refused text and its index, or why no text was read.
#[derive(Clone, Copy, Debug, PartialEq, Eq)]
pub enum ColumnRefusal {
    Text(Refusal, usize),
    Call(Refusal),
}

// The values of all texts into the first cells, or the first refused text. Bytes and ends, as the C interface has them.
#[tactic(auto, using(crate::proofs::Passes::unread))]
pub fn parse_column(
    column: Column,
    texts: &[u8],
    ends: &[u32],
    cells: &mut [i64],
) -> Result<(), ColumnRefusal>
    ensures { Answers (whole (reads «column») texts.now ends.now (length cells.old)) result (length ends.now) cells.old cells.new }
{
    let texts = match Texts::new(texts, ends) {
        Some(texts) if ends.len() <= cells.len() => texts,
        _ => return Err(ColumnRefusal::Call(Refusal::Column)),
    };
    if let Some((why, index)) = texts.first_refused(column) {
        return Err(ColumnRefusal::Text(why, index));
    }
    texts.store(column, cells);
    Ok(())
}

// The `parse` of a column's type, in 64 bits. Laid into both readings of a column's texts: the answer of a call goes by memory.
#[inline(always)]
pub fn parse(column: Column, text: &[u8]) -> Result<i64, Refusal>
    ensures { outcome result ≡ reads «column» text.now }
{
    match column {
        Column::TimestampNanosecond => TimestampNanosecondType::parse(text),
        Column::TimestampMicrosecond => TimestampMicrosecondType::parse(text),
        Column::TimestampMillisecond => TimestampMillisecondType::parse(text),
        Column::TimestampSecond => TimestampSecondType::parse(text),
        Column::Time64Nanosecond => Time64NanosecondType::parse(text),
        Column::Time64Microsecond => Time64MicrosecondType::parse(text),
        Column::Time32Millisecond => Time32MillisecondType::parse(text).map(i64::from),
        Column::Time32Second => Time32SecondType::parse(text).map(i64::from),
        Column::Date32 => Date32Type::parse(text).map(i64::from),
        Column::Date64 => Date64Type::parse(text),
    }
}
