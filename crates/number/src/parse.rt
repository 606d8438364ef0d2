// Rust's `str::parse` of integers, on bytes.
ghost use Rattle.std.specs.Prelude.{◌≡◌, ◌-◌, ◌≤◌, Bool, true, false, cond, ℕ, ℤ, pos, Some, option_map, nat_abs};
ghost use Rattle.number.specs.Widths.{in_signed, in_type, keep};
ghost use Rattle.number.specs.Decimal.{unsigned, numeral, integer};
ghost use Rattle.std.proofs.Common.{ap};
ghost use lib.Dec.{lit≤};

use crate::{checked, sign};
use text::digits::digit;

// An integer type of at most 64 bits, signed or not.
pub trait Integer: Drop {
    ghost SIGNED: { Bool };

    ghost bits: { ℕ };

    ghost int: { Self → ℤ };

    const SIGNED: bool;

    // 64 signed bits hold each of the type.
    ghost room: { cond SIGNED (bits - 1) bits ≤ 63 };

    // Two that are one number are one.
    ghost one: { (x y : Self) → int x ≡ int y → x ≡ y };

    // A 64-bit number as one of the type, where it fits.
    fn narrow(x: i64) -> Option<Self>
        ensures { option_map int result ≡ keep (in_type SIGNED bits) (Some x) };
}

impl Integer for i64 {
    ghost SIGNED = { true };

    ghost bits = { 64 };

    ghost int = { λ z. z };

    const SIGNED: bool = true;

    ghost room = { lit≤ tt };

    ghost one = { λ x y e. e };

    fn narrow(x: i64) -> Option<i64> {
        Some(x)
    }
}

impl Integer for i32 {
    ghost SIGNED = { true };

    ghost bits = { 32 };

    ghost int = { λ z. z };

    const SIGNED: bool = true;

    ghost room = { lit≤ tt };

    ghost one = { λ x y e. e };

    fn narrow(x: i64) -> Option<i32> {
        checked::narrow(x)
    }
}

impl Integer for u32 {
    ghost SIGNED = { false };

    ghost bits = { 32 };

    ghost int = { pos };

    const SIGNED: bool = false;

    ghost room = { lit≤ tt };

    ghost one = { λ x y e. ap nat_abs e };

    fn narrow(x: i64) -> Option<u32> {
        u32::try_from(x).ok()
    }
}

// The digits after a sign, as a number of 64 signed bits; there is at least one.
fn digits_after(neg: bool, s: &[u8]) -> Option<i64>
    ensures { result ≡ keep (in_signed 63) (unsigned neg s.now) }
{
    if s.is_empty() {
        return None;
    }
    let mut a: u64 = 0;
    for &b in s {
        let d = digit(b);
        if 10 <= d {
            return None;
        }
        a = a.checked_mul(10)?.checked_add(u64::from(d))?;
    }
    sign::signed_i64(neg, a)
}

// The number that a text writes, of 64 signed bits; a minus is a sign where the type has one.
fn numeral<T: Integer>(s: &[u8]) -> Option<i64>
    ensures { result ≡ keep (in_signed 63) (numeral T.SIGNED s.now) }
{
    match s {
        [b'+', rest @ ..] => digits_after(false, rest),
        [b'-', rest @ ..] if T::SIGNED => digits_after(true, rest),
        _ => digits_after(false, s),
    }
}

// Rust's `str::parse`.
pub fn parse<T: Integer>(s: &[u8]) -> Option<T>
    ensures { option_map T.int result ≡ integer T.SIGNED T.bits s.now }
{
    T::narrow(numeral::<T>(s)?)
}
