// The units of an interval: their spellings and their numbers.
#![tactic(auto)]

mod letters;
pub mod numbers;
pub mod words;

// The units of an interval, each with its number, where its mark is kept.
#[derive(Clone, Copy, Debug, PartialEq, Eq)]
pub enum IntervalUnit {
    Century = 0,
    Decade = 1,
    Year = 2,
    Month = 3,
    Week = 4,
    Day = 5,
    Hour = 6,
    Minute = 7,
    Second = 8,
    Millisecond = 9,
    Microsecond = 10,
    Nanosecond = 11,
}

// The unit word at a place: one that ends the text; or one and the place behind the white space that follows.
#[derive(Clone, Copy, Debug, PartialEq, Eq)]
pub enum Word {
    Last(IntervalUnit),
    More(IntervalUnit, usize),
}
