// The rows of Unicode's table 3-7, by the first byte of a character.
ghost use Rattle.std.specs.Prelude.{◌≡◌};
ghost use Rattle.utf8.specs.Utf8.{table, follows};

use crate::Follow;

// What must follow the first byte of a character; after a byte that begins none, a byte from 1 to 0, which there is not, as the
// definition has it: no Option, so that the loop has one state.
pub fn follow(b: u8) -> Follow
    ensures { result ≡ follows table b }
{
    match b {
        0x00..=0x7F => Follow::new(0, 0x80, 0xBF),
        0xC2..=0xDF => Follow::new(1, 0x80, 0xBF),
        0xE0 => Follow::new(2, 0xA0, 0xBF),
        0xE1..=0xEC => Follow::new(2, 0x80, 0xBF),
        0xED => Follow::new(2, 0x80, 0x9F),
        0xEE..=0xEF => Follow::new(2, 0x80, 0xBF),
        0xF0 => Follow::new(3, 0x90, 0xBF),
        0xF1..=0xF3 => Follow::new(3, 0x80, 0xBF),
        0xF4 => Follow::new(3, 0x80, 0x8F),
        _ => Follow::new(1, 1, 0),
    }
}
