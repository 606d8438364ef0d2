// What an amount of a unit adds to the counts of an interval: Rust's `Interval::add`.
ghost use Rattle.std.specs.Prelude.{◌≡◌, ◌*◌, ◌^◌, ◌≤◌, ◌<◌, pos, nat_abs, ◌+ℤ◌, ◌*ℤ◌};
ghost use Rattle.std.specs.Int.Signed.{quot_z};
ghost use Rattle.number.specs.Widths.{fit};
ghost use Rattle.amount.specs.Grammar.{precision};
ghost use Rattle.amount.specs.Read.{value_of, SameSign};
ghost use Rattle.rule.specs.Contribution.{times, whole_times, frac_times, contribution, counts as three_of, plus};
ghost use Rattle.total.specs.Read.{counts_of};
ghost use Rattle.total.specs.Helpers.{sum_of, Ratio, fitting, added};

use crate::Interval;
use amount::IntervalAmount;
use count::{Days, Months, Nanos};
use number::checked;
use unit::IntervalUnit;

// A whole part times k and a part of a fraction, as a count of 32 bits. `as`: with `from` the proof wants an equation more for each.
pub fn count32(whole: i64, k: u32, part: i64) -> Option<i32>
    requires { nat_abs part ≤ 1200 }
    ensures { result ≡ fit 31 (whole *ℤ pos k +ℤ part) }
{
    checked::narrow(whole.checked_mul(k as i64)?.checked_add(part)?)
}

// The same as a count of 64 bits. Not one function over the width: here the product itself may pass it, so that the part must have the sign of
// the whole.
pub fn count64(whole: i64, k: u64, part: i64) -> Option<i64>
    requires { (k < 2 ^ 63) × SameSign whole part }
    ensures { result ≡ fit 63 (whole *ℤ pos k +ℤ part) }
{
    whole.checked_mul(k as i64)?.checked_add(part)
}

// A fraction times a over c, cut toward zero. Factors go by themselves, as the table of `contribution` writes them in a row: a struct would be
// made once for each unit and taken apart at once.
pub fn cut(amount: IntervalAmount, a: u32, c: u64) -> i64
    requires { (a ≤ 6048) × (0 < c) × (c ≤ 10 ^ precision) }
    ensures { result ≡ quot_z (amount.frac *ℤ pos a) (pos c) }
{
    amount.frac * i64::from(a) / (c as i64)
}

// Months alone: the amount times k. A fraction counts ten to the limit, so that its factor is a over c.
pub fn months(amount: IntervalAmount, k: u32, a: u32, c: u64) -> Option<Interval>
    requires { (k ≤ 1200) × Ratio k a c }
    ensures { sum_of result ≡ fitting (three_of (times precision k (value_of amount)) (pos 0) (pos 0)) }
{
    Some(Interval {
        months: Months(count32(amount.integer, k, cut(amount, a, c))?),
        days: Days(0),
        nanos: Nanos(0),
    })
}

// Months, and thirty days to one of them.
pub fn months_and_days(amount: IntervalAmount) -> Option<Interval>
    ensures { sum_of result ≡ fitting (three_of (whole_times 1 (value_of amount)) (frac_times precision 30 (value_of amount)) (pos 0)) }
{
    Some(Interval {
        months: Months(checked::narrow(amount.integer)?),
        days: Days(checked::narrow(cut(amount, 3, 100_000_000_000_000))?),
        nanos: Nanos(0),
    })
}

// Days, k to one of the amount, and the nanoseconds of its fraction, where a counts 10^11.
pub fn days_and_nanos(amount: IntervalAmount, k: u32, a: u32) -> Option<Interval>
    requires { a ≤ 6048 }
    ensures { sum_of result ≡ fitting (three_of (pos 0) (whole_times k (value_of amount)) (frac_times precision (a * 100_000_000_000) (value_of amount))) }
{
    Some(Interval {
        months: Months(0),
        days: Days(count32(amount.integer, k, 0)?),
        nanos: Nanos(cut(amount, a, 10_000)),
    })
}

// Nanoseconds alone: the amount times k.
pub fn nanos(amount: IntervalAmount, k: u64, a: u32, c: u64) -> Option<Interval>
    requires { Ratio k a c }
    ensures { sum_of result ≡ fitting (three_of (pos 0) (pos 0) (times precision k (value_of amount))) }
{
    Some(Interval {
        months: Months(0),
        days: Days(0),
        nanos: Nanos(count64(amount.integer, k, cut(amount, a, c))?),
    })
}

// Nanoseconds as they are: a fraction of one comes to nothing.
pub fn nanoseconds(amount: IntervalAmount) -> Option<Interval>
    ensures { sum_of result ≡ fitting (three_of (pos 0) (pos 0) (times precision 1 (value_of amount))) }
{
    Some(Interval {
        months: Months(0),
        days: Days(0),
        nanos: Nanos(amount.integer),
    })
}

// What an amount of a unit comes to: document 01's table. As in the Rust, factors and divisors of fractions have no power of ten in common.
#[tactic(auto, unfolding(rule::specs::Contribution::contribution))]
pub fn contribution(amount: IntervalAmount, unit: IntervalUnit) -> Option<Interval>
    ensures { sum_of result ≡ fitting (contribution precision unit (value_of amount)) }
{
    match unit {
        IntervalUnit::Century => months(amount, 1200, 12, 10_000_000_000_000),
        IntervalUnit::Decade => months(amount, 120, 12, 100_000_000_000_000),
        IntervalUnit::Year => months(amount, 12, 12, 1_000_000_000_000_000),
        IntervalUnit::Month => months_and_days(amount),
        IntervalUnit::Week => days_and_nanos(amount, 7, 6048),
        IntervalUnit::Day => days_and_nanos(amount, 1, 864),
        IntervalUnit::Hour => nanos(amount, 3_600_000_000_000, 36, 10_000),
        IntervalUnit::Minute => nanos(amount, 60_000_000_000, 6, 100_000),
        IntervalUnit::Second => nanos(amount, 1_000_000_000, 1, 1_000_000),
        IntervalUnit::Millisecond => nanos(amount, 1_000_000, 1, 1_000_000_000),
        IntervalUnit::Microsecond => nanos(amount, 1_000, 1, 1_000_000_000_000),
        IntervalUnit::Nanosecond => nanoseconds(amount),
    }
}

impl Interval {
    // The sum, count by count.
    pub(crate) fn plus(self, other: Interval) -> Option<Interval>
        ensures { sum_of result ≡ fitting (plus (counts_of self) (counts_of other)) }
    {
        Some(Interval {
            months: self.months.plus(other.months)?,
            days: self.days.plus(other.days)?,
            nanos: self.nanos.plus(other.nanos)?,
        })
    }

    // The totals with an amount of a unit, where it fits and they do.
    pub(crate) fn add(self, amount: IntervalAmount, unit: IntervalUnit) -> Option<Interval>
        ensures { sum_of result ≡ added (counts_of self) (contribution precision unit (value_of amount)) }
    {
        self.plus(contribution(amount, unit)?)
    }
}
