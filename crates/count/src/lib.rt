// Counts of months, of days, of nanoseconds and of milliseconds, document 01's tuple structs, which never pass for one another: each is made
// of a number once, and added to its own kind alone, by a `plus` of its own.
#![tactic(auto)]

ghost use Rattle.std.specs.Prelude.{◌≡◌, ◌+ℤ◌};
ghost use Rattle.number.specs.Widths.{fit};
ghost use Rattle.count.specs.Read.{maybe_months, maybe_days, maybe_nanos};

// A count of months.
#[derive(Clone, Copy, Debug, PartialEq, Eq)]
pub struct Months(pub i32);

// A count of days.
#[derive(Clone, Copy, Debug, PartialEq, Eq)]
pub struct Days(pub i32);

// A count of nanoseconds.
#[derive(Clone, Copy, Debug, PartialEq, Eq)]
pub struct Nanos(pub i64);

// A count of milliseconds.
#[derive(Clone, Copy, Debug, PartialEq, Eq)]
pub struct Millis(pub i32);

impl Months {
    // The sum, where it fits.
    pub fn plus(self, other: Months) -> Option<Months>
        ensures { maybe_months result ≡ fit 31 (self.0 +ℤ other.0) }
    {
        self.0.checked_add(other.0).map(Months)
    }
}

impl Days {
    // The sum, where it fits.
    pub fn plus(self, other: Days) -> Option<Days>
        ensures { maybe_days result ≡ fit 31 (self.0 +ℤ other.0) }
    {
        self.0.checked_add(other.0).map(Days)
    }
}

impl Nanos {
    // The sum, where it fits.
    pub fn plus(self, other: Nanos) -> Option<Nanos>
        ensures { maybe_nanos result ≡ fit 63 (self.0 +ℤ other.0) }
    {
        self.0.checked_add(other.0).map(Nanos)
    }
}
