// Unit words, as Rust's `IntervalUnit::from_str` takes them. What reads them at a place is laid in, as `component::component` says.
ghost use Rattle.std.specs.Prelude.{◌≡◌, ◌-◌, ◌≤◌, length, drop};
ghost use Rattle.white.specs.WhiteSpace.{white_len};
ghost use Rattle.unit.specs.Units.{unit_of};
ghost use Rattle.unit.specs.Read.{word_is};

use crate::{IntervalUnit, Word, letters};

impl IntervalUnit {
    // Rust's name; a method and no `FromStr`, whose error would say no more than None.
    pub fn from_str(word: &[u8]) -> Option<IntervalUnit>
        ensures { result ≡ unit_of word.now }
    {
        let letters = letters::letters_at(word, 0);
        if letters.end < word.len() {
            return None;
        }
        letters::unit_of_key(letters.key)
    }
}

// The length of the white space character at a place, 0 for none, as the definition has it: nearly always one space. Text and place go side by
// side, as `white_at` says.
#[inline(always)]
pub fn white_len(text: &[u8], at: usize) -> usize
    ensures { (result ≡ white_len (drop at text.now)) × (result ≤ length text.now - at) }
{
    if text::byte_at(text, at) == b' ' {
        1
    } else {
        white::white_at(text, at)
    }
}

// The unit of the word at a place: letters, behind which white space must follow, or nothing; the place where there is none.
#[inline(always)]
pub fn word_at(text: &[u8], at: usize) -> Result<Word, usize>
    ensures { word_is text.now at result }
{
    if text.len() <= at {
        return Err(at);
    }
    let letters = letters::letters_at(text, at);
    let Some(unit) = letters::unit_of_key(letters.key) else {
        return Err(at);
    };
    if text.len() <= letters.end {
        return Ok(Word::Last(unit));
    }
    let white = white_len(text, letters.end);
    if white == 0 {
        return Err(at);
    }
    Ok(Word::More(unit, letters.end + white))
}
