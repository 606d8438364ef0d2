// The ten column types as one enum, what they read as one table and as relations (`specs/`), and the theorems over the ten (`proofs/`).
// Their code stands in `stamp_column`, `time_column` and `date_column`.
#![tactic(auto)]

// Document 01's ten, in the order of their numbers.
#[derive(Clone, Copy, Debug, PartialEq, Eq)]
pub enum Column {
    TimestampNanosecond,
    TimestampMicrosecond,
    TimestampMillisecond,
    TimestampSecond,
    Time64Nanosecond,
    Time64Microsecond,
    Time32Millisecond,
    Time32Second,
    Date32,
    Date64,
}
