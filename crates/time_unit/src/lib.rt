// The units of the time and timestamp columns: how many nanoseconds each has.
#![tactic(auto)]

ghost use Rattle.std.specs.Prelude.{◌≤◌, ℕ};
ghost use lib.Dec.{lit≤};

pub trait TimeUnit {
    ghost NANOS: { ℕ };

    const NANOS: u32;

    ghost some: { 1 ≤ NANOS };
}

#[derive(Clone, Copy)]
pub struct Nanosecond;

impl TimeUnit for Nanosecond {
    ghost NANOS = { 1 };

    const NANOS: u32 = 1;

    ghost some = { lit≤ tt };
}

#[derive(Clone, Copy)]
pub struct Microsecond;

impl TimeUnit for Microsecond {
    ghost NANOS = { 1000 };

    const NANOS: u32 = 1_000;

    ghost some = { lit≤ tt };
}

#[derive(Clone, Copy)]
pub struct Millisecond;

impl TimeUnit for Millisecond {
    ghost NANOS = { 1000000 };

    const NANOS: u32 = 1_000_000;

    ghost some = { lit≤ tt };
}

#[derive(Clone, Copy)]
pub struct Second;

impl TimeUnit for Second {
    ghost NANOS = { 1000000000 };

    const NANOS: u32 = 1_000_000_000;

    ghost some = { lit≤ tt };
}
