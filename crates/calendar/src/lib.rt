// The proleptic Gregorian calendar: the day number of a date, by its cycle of 400 years, which has 146,097 days.
#![tactic(auto)]

ghost use Rattle.std.specs.Prelude.{◌≡◌, ◌<◌, pos};
ghost use Rattle.calendar.specs.Calendar.{civil, year_days};
ghost use Rattle.calendar.specs.Cycle.{start};

use cycle::STARTS;

mod cycle;

// A year of the cycle: the day that it starts on, and its days.
#[derive(Clone, Copy)]
pub struct Year {
    pub start: u32,
    pub days: u32,
}

// chrono's `NaiveDate::from_ymd_opt` and the days to it, for every year of 32 signed bits: the day number, counted from 1970-01-01,
// which may need more than 32 bits. None where the calendar has no such day. `as`: with `from` the proof wants an equation more for each.
pub fn days_from_ymd(year: i32, month: u32, day_of_month: u32) -> Option<i64>
    ensures { result ≡ civil year month day_of_month }
{
    if month < 1 || 12 < month || day_of_month < 1 {
        return None;
    }
    let n = cycle::counted(year);
    let y = year_of_cycle((n % 400) as usize);
    let leap = y.days == 366;
    let before = cycle::days_before(leap, month);
    let next = cycle::days_before(leap, month + 1);
    if next - before < day_of_month {
        return None;
    }
    let u = n / 400 * 146_097 + y.start as u64 + before as u64 + (day_of_month - 1) as u64;
    Some(u as i64 - cycle::EPOCH)
}

// A year of the cycle, from the table: its start, and its days up to the next start.
#[tactic(auto, using(crate::proofs::Years::year_after))]
fn year_of_cycle(y: usize) -> Year
    requires { y < 400 }
    ensures { (result.start ≡ start y) × (result.days ≡ year_days (pos y)) }
{
    let start = start_of(y);
    Year {
        start,
        days: start_of(y + 1) - start,
    }
}

// The day of the cycle that a year of it, or the cycle behind it, starts on.
#[tactic(auto, using(crate::proofs::Starts::year_start))]
fn start_of(y: usize) -> u32
    requires { y < 401 }
    ensures { result ≡ start y }
{
    STARTS[y]
}
