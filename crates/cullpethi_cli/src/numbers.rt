// The numbers of an interval and of a keypad text, as words of the command line.
use count::{Days, Months, Nanos};
use number::parse::parse;
use total::Interval;

// Those that were named, in order.
#[derive(Clone, Copy)]
pub struct Numbers {
    months: Option<i32>,
    days: Option<i32>,
    nanos: Option<i64>,
}

impl Numbers {
    pub fn none() -> Numbers {
        Numbers {
            months: None,
            days: None,
            nanos: None,
        }
    }

    // Takes the next one; tells whether the word is a number of its width, and one more is wanted.
    pub fn take(&mut self, word: &[u8]) -> bool {
        if self.months.is_none() {
            self.months = parse::<i32>(word);
            return self.months.is_some();
        }
        if self.days.is_none() {
            self.days = parse::<i32>(word);
            return self.days.is_some();
        }
        if self.nanos.is_none() {
            self.nanos = parse::<i64>(word);
            return self.nanos.is_some();
        }
        false
    }

    // Where all three were named.
    pub fn interval(&self) -> Option<Interval> {
        Some(Interval {
            months: Months(self.months?),
            days: Days(self.days?),
            nanos: Nanos(self.nanos?),
        })
    }
}

// The number of a keypad text, from 0 on.
pub fn whole(word: &[u8]) -> Option<u64> {
    str::from_utf8(word).ok()?.parse::<u64>().ok()
}
