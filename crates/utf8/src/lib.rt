// Well-formed UTF-8.
#![tactic(auto)]

ghost use Rattle.std.specs.Prelude.{◌≡◌};
ghost use Rattle.text.specs.Digits.{within};
ghost use Rattle.utf8.specs.Utf8.{following, utf8};

mod rows;

// The bytes of a character still to come: how many, and the range of the next; the later ones are 80 to BF.
#[derive(Clone, Copy)]
pub struct Follow {
    pub count: u8,
    pub low: u8,
    pub high: u8,
}

impl Follow {
    const fn new(count: u8, low: u8, high: u8) -> Follow
        ensures { result ≡ following count low high }
    {
        Follow { count, low, high }
    }

    // So many bytes that are no second one.
    const fn later(count: u8) -> Follow
        ensures { result ≡ following count 0x80 0xBF }
    {
        Follow::new(count, 0x80, 0xBF)
    }

    // The byte may be the next.
    fn takes(self, b: u8) -> bool
        ensures { result ≡ within self.low b self.high }
    {
        self.low <= b && b <= self.high
    }
}

// Rust's `str::from_utf8`, as a test, which document 01 has ported and proved like the readers. Nearly all texts are ASCII, which is quicker to
// tell.
#[tactic(auto, using(crate::proofs::Ascii::told))]
pub fn is_utf8(s: &[u8]) -> bool
    ensures { result ≡ utf8 s.now }
{
    s.is_ascii() || is_well_formed(s)
}

// Byte by byte: how many bytes of a character are still to come, and the range of the next.
fn is_well_formed(s: &[u8]) -> bool
    ensures { result ≡ utf8 s.now }
{
    let mut follow = Follow::later(0);
    for &b in s {
        if follow.count == 0 {
            follow = rows::follow(b);
        } else if follow.takes(b) {
            follow = Follow::later(follow.count - 1);
        } else {
            return false;
        }
    }
    follow.count == 0
}
