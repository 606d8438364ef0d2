// Digits of a text.
ghost use Rattle.std.specs.Prelude.{◌≡◌, ◌&&◌, ◌+◌, ◌≤◌, leb, length, take, drop, if◌then◌else◌, Some, None};
ghost use Rattle.text.specs.Digits.{digit_of, digits, run, two_digits, two_at};

// The separators of dates and times as digits: each byte less 48, wrapping, in which form document 01 has them tested too.
pub const HYPHEN: u8 = 253;

pub const POINT: u8 = 254;

pub const COLON: u8 = 10;

pub const CAPITAL_T: u8 = 36;

pub const SMALL_T: u8 = 68;

pub const CAPITAL_Z: u8 = 42;

pub const SPACE: u8 = 240;

// A byte less 48, wrapping: below 10 for a digit, at 10 or above for any other byte, the form that document 01 names in place of an Option.
pub fn digit(b: u8) -> u8
    ensures { result ≡ digit_of b }
{
    b.wrapping_sub(48)
}

// The number of the two digits at a place, which is given by value, since each reader knows its places; none where one of them is no digit or
// past the end.
pub fn two(s: &[u8], at: usize) -> Option<u8>
    ensures { result ≡ (if two_digits s.now at then Some (two_at s.now at) else None) }
{
    let [a, b, ..] = s.get(at..)? else {
        return None;
    };
    let a = digit(*a);
    let b = digit(*b);
    if a < 10 && b < 10 {
        Some(a * 10 + b)
    } else {
        None
    }
}

// How many digits a text begins with. A `for`: of `position`, tried, the proof did not close.
pub fn run_len(s: &[u8]) -> usize
    ensures { (result ≡ run s.now) × (result ≤ length s.now) }
{
    for (i, &b) in s.iter().enumerate() {
        if 10 <= digit(b) {
            return i;
        }
    }
    s.len()
}

// Where the digits that stand at a place end: by eights while the next eight bytes are digits, then one by one.
pub fn run_end(s: &[u8], from: usize) -> usize
    ensures { (result ≡ from + run (drop from s.now)) × (from ≤ length s.now → result ≤ length s.now) }
{
    if s.len() <= from {
        return from;
    }
    let mut i = from;
    while eight_digits(&s[i..]) {
        i += 8;
    }
    i + run_len(&s[i..])
}

// Whether a text begins with eight digits. By `&`, so that a machine may look at them together.
fn eight_digits(s: &[u8]) -> bool
    ensures { result ≡ (leb 8 (length s.now) && digits (take 8 s.now)) }
{
    let [a, b, c, d, e, f, g, h, ..] = s else {
        return false;
    };
    (digit(*a) < 10)
        & (digit(*b) < 10)
        & (digit(*c) < 10)
        & (digit(*d) < 10)
        & (digit(*e) < 10)
        & (digit(*f) < 10)
        & (digit(*g) < 10)
        & (digit(*h) < 10)
}
