// The parts of an amount: digits as a number, the fraction, and what stands behind the sign. Laid in, as `component::component` says.
ghost use Rattle.std.specs.Prelude.{◌≡◌, ◌+◌, ◌*◌, ◌^◌, ◌≤◌, ◌<◌, min, length, drop};
ghost use Rattle.number.specs.Widths.{signed};
ghost use Rattle.amount.specs.Grammar.{precision};
ghost use Rattle.amount.specs.Scan.{negative, sign_len};
ghost use Rattle.amount.specs.Found.{cap, NumberIs, fraction_is, PointAt};
ghost use Rattle.amount.specs.Read.{amount_is};

use crate::IntervalAmount;
use number::sign;
use text::digits::digit;

// Digits as a number, and how many they are.
#[derive(Clone, Copy)]
pub struct Number {
    pub value: u64,
    pub len: usize,
}

// One digit more, up to a number that fits with no sign: no `checked_mul`, since the length is wanted where the number is too large, too; and no
// `saturating_mul`, with which a digit takes half as many instructions again.
#[inline(always)]
pub fn push(v: u64, d: u64) -> u64
    ensures { result ≡ min (v * 10 + d) cap }
{
    if 922_337_203_685_477_580 < v {
        return 9_223_372_036_854_775_809;
    }
    (v * 10).saturating_add(d).min(9_223_372_036_854_775_809)
}

// The digits that a text begins with.
#[inline(always)]
pub fn whole(text: &[u8]) -> Number
    ensures { NumberIs text.now result }
{
    let mut value: u64 = 0;
    for (i, &b) in text.iter().enumerate() {
        let d = digit(b);
        if 10 <= d {
            return Number { value, len: i };
        }
        value = push(value, u64::from(d));
    }
    Number {
        value,
        len: text.len(),
    }
}

// The digits that a text begins with as a fraction, where they are at most fifteen.
// After each digit the scale is a tenth of what it was: ten to the places that are left.
#[inline(always)]
pub fn fraction(text: &[u8]) -> Option<Number>
    ensures { fraction_is precision text.now result }
{
    let mut value: u64 = 0;
    let mut scale: u64 = 1_000_000_000_000_000;
    for (i, &b) in text.iter().enumerate() {
        let d = digit(b);
        if 10 <= d {
            return Some(Number {
                value: value * scale,
                len: i,
            });
        }
        if scale == 1 {
            return None;
        }
        value = value * 10 + u64::from(d);
        scale /= 10;
    }
    Some(Number {
        value: value * scale,
        len: text.len(),
    })
}

// A size with a sign; no Option, as `signed_i64` gives, since a fraction always fits.
#[inline(always)]
pub fn with_sign(neg: bool, size: u64) -> i64
    requires { size < 2 ^ 63 }
    ensures { result ≡ signed neg size }
{
    let size = size as i64;
    if neg { -size } else { size }
}

// The amount at a place, where its point ends at `from`: one to fifteen digits, which carry the sign of the whole part.
#[inline(always)]
pub fn fraction_at(
    text: &[u8],
    at: usize,
    from: usize,
    neg: bool,
    integer: i64,
) -> Result<(IntervalAmount, usize), usize>
    requires { PointAt text.now at from neg integer }
    ensures { amount_is precision text.now at result }
{
    let Some(part) = fraction(&text[from..]) else {
        return Err(at);
    };
    if part.len == 0 {
        return Err(at);
    }
    let frac = with_sign(neg, part.value);
    Ok((IntervalAmount { integer, frac }, from + part.len))
}

// The amount at a place, where its sign ends at `from`: digits, then perhaps a point.
#[inline(always)]
pub fn unsigned_at(
    text: &[u8],
    at: usize,
    from: usize,
    neg: bool,
) -> Result<(IntervalAmount, usize), usize>
    requires { (neg ≡ negative (drop at text.now)) × (from ≡ at + sign_len neg) × (from ≤ length text.now) }
    ensures { amount_is precision text.now at result }
{
    let digits = whole(&text[from..]);
    let next = from + digits.len;
    match sign::signed_i64(neg, digits.value) {
        None => Err(at),
        Some(integer) if text::byte_at(text, next) == b'.' => {
            fraction_at(text, at, next + 1, neg, integer)
        }
        Some(_) if next == from => Err(at),
        Some(integer) => Ok((IntervalAmount { integer, frac: 0 }, next)),
    }
}
