// Sign and size of a signed number.
ghost use Rattle.std.specs.Prelude.{◌≡◌};
ghost use Rattle.number.specs.Widths.{fit, signed};

// The number with a sign and a size, where it fits: the least number too.
pub fn signed_i64(neg: bool, m: u64) -> Option<i64>
    ensures { result ≡ fit 63 (signed neg m) }
{
    if neg {
        0i64.checked_sub_unsigned(m)
    } else {
        0i64.checked_add_unsigned(m)
    }
}
