// White space: Unicode's White_Space property, in UTF-8.
#![tactic(auto)]

ghost use Rattle.std.specs.Prelude.{◌≡◌, ◌-◌, ◌≤◌, length, drop};
ghost use Rattle.white.specs.WhiteSpace.{white1, white2, white3, white_of, white_len};

#[tactic(auto, unfolding(crate::specs::WhiteSpace::white1))]
pub fn is_white1(b: u8) -> bool
    ensures { result ≡ white1 b }
{
    matches!(b, 0x09..=0x0D | 0x20)
}

#[tactic(auto, unfolding(crate::specs::WhiteSpace::white2))]
pub fn is_white2(b: u8, c: u8) -> bool
    ensures { result ≡ white2 b c }
{
    matches!((b, c), (0xC2, 0x85 | 0xA0))
}

#[tactic(auto, unfolding(crate::specs::WhiteSpace::white3))]
pub fn is_white3(b: u8, c: u8, d: u8) -> bool
    ensures { result ≡ white3 b c d }
{
    matches!(
        (b, c, d),
        (0xE1, 0x9A, 0x80)
            | (0xE2, 0x80, 0x80..=0x8A | 0xA8..=0xA9 | 0xAF)
            | (0xE2, 0x81, 0x9F)
            | (0xE3, 0x80, 0x80)
    )
}

// The length of the white space character that three bytes begin with, 0 for none, as the definition has it, to go on by.
#[tactic(auto, unfolding(crate::specs::WhiteSpace::white_of))]
pub fn white_of(b: u8, c: u8, d: u8) -> usize
    ensures { result ≡ white_of b c d }
{
    if is_white1(b) {
        1
    } else if is_white2(b, c) {
        2
    } else if is_white3(b, c, d) {
        3
    } else {
        0
    }
}

// The length of the white space character at a place, 0 for none, as `white_of` tells it. The place goes by value beside the text, as in all
// that reads an interval: document 01's cursor, and the place is told where a text is refused.
pub fn white_at(s: &[u8], at: usize) -> usize
    ensures { (result ≡ white_len (drop at s.now)) × (result ≤ length s.now - at) }
{
    let Some(&b) = s.get(at) else {
        return 0;
    };
    white_of(b, text::byte_at(s, at + 1), text::byte_at(s, at + 2))
}
