// A number that may not fit.
ghost use Rattle.std.specs.Prelude.{◌≡◌};
ghost use Rattle.number.specs.Widths.{fit};

// A 64-bit number as one of 32 bits, where it fits.
pub fn narrow(x: i64) -> Option<i32>
    ensures { result ≡ fit 31 x }
{
    i32::try_from(x).ok()
}
