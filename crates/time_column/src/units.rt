// What a time column of each unit holds.
ghost use Rattle.std.specs.Prelude.{◌≡◌, refl, true, ◌<◌, ◌*◌, ◌-◌, ◌^◌, ℕ, List};
ghost use lib.Dec.{lit<};
ghost use Rattle.refusal.specs.Outcome.{Outcome, accepted, and_then};
ghost use Rattle.time_column.specs.Answer.{time_column};
ghost use Rattle.time_column.specs.Widths.{in_integers};

use number::parse::Integer;
use time_unit::{Microsecond, Millisecond, Nanosecond, Second, TimeUnit};

pub trait TimeColumn: TimeUnit {
    type Native: Integer;

    // What the column reads.
    ghost reads: { List ℕ → Outcome Self.Native };

    ghost signed: { Self.Native.SIGNED ≡ true };

    // A day and a second fit.
    ghost room: { 86401000000000 < 2 ^ (Self.Native.bits - 1) * Self.NANOS };

    ghost reads_is: { (t : List ℕ) → and_then (reads t) (λ z. accepted (Self.Native.int z)) ≡ time_column Self.NANOS Self.Native.bits t };
}

impl TimeColumn for Nanosecond {
    type Native = i64;

    ghost reads = { time_column 1 64 };

    ghost signed = { refl };

    ghost room = { lit< tt };

    ghost reads_is = { λ t. in_integers (time_column 1 64 t) };
}

impl TimeColumn for Microsecond {
    type Native = i64;

    ghost reads = { time_column 1000 64 };

    ghost signed = { refl };

    ghost room = { lit< tt };

    ghost reads_is = { λ t. in_integers (time_column 1000 64 t) };
}

impl TimeColumn for Millisecond {
    type Native = i32;

    ghost reads = { time_column 1000000 32 };

    ghost signed = { refl };

    ghost room = { lit< tt };

    ghost reads_is = { λ t. in_integers (time_column 1000000 32 t) };
}

impl TimeColumn for Second {
    type Native = i32;

    ghost reads = { time_column 1000000000 32 };

    ghost signed = { refl };

    ghost room = { lit< tt };

    ghost reads_is = { λ t. in_integers (time_column 1000000000 32 t) };
}
