// The letters of a unit word, read at a place of a text as digits of base 32, and the unit by that number: letters come in either case, and
// U+212A is a k, so that patterns of bytes would want a copy of the word in lower case. Laid in, as `component::component` says.
ghost use Rattle.std.specs.Prelude.{◌≡◌, ◌≤◌, length};
ghost use Rattle.unit.specs.Units.{spellings};
ghost use Rattle.unit.specs.Keys.{front_of, LettersIs, by_key};

use crate::IntervalUnit;

// A letter of a unit word: 1 for a to 26 for z; and how many bytes it takes.
#[derive(Clone, Copy)]
pub struct Letter {
    pub code: u64,
    pub width: usize,
}

// Letters of a text, packed as digits of base 32, and where they end.
#[derive(Clone, Copy)]
pub struct Letters {
    pub key: u64,
    pub end: usize,
}

// The letter that a text begins with, in either case; U+212A is a k.
#[inline(always)]
#[tactic(auto, unfolding(crate::specs::Keys::letter_of, crate::specs::Keys::plain_letter, crate::specs::Units::kelvin, crate::specs::Units::low))]
pub fn first_letter(text: &[u8]) -> Option<Letter>
    ensures { result ≡ front_of text.now }
{
    match text {
        [b @ b'a'..=b'z', ..] => Some(Letter {
            code: (*b - 0x60) as u64,
            width: 1,
        }),
        [b @ b'A'..=b'Z', ..] => Some(Letter {
            code: (*b - 0x40) as u64,
            width: 1,
        }),
        // In a match of its own: beside the others its length is asked before any letter is looked at.
        _ => match text {
            [0xE2, 0x84, 0xAA, ..] => Some(Letter { code: 11, width: 3 }),
            _ => None,
        },
    }
}

// The letters at a place, as many as a unit can have, packed as digits of base 32, and the place where they end, which callers are told: it
// goes up by one or, for U+212A, by three.
#[inline(always)]
pub fn letters_at(text: &[u8], from: usize) -> Letters
    requires { from ≤ length text.now }
    ensures { LettersIs text.now from result }
{
    let mut key: u64 = 0;
    let mut end = from;
    while let Some(letter) = first_letter(&text[end..]) {
        // 32^11: twelve letters are read, and no unit has thirteen.
        if 36028797018963968 <= key {
            break;
        }
        key = key * 32 + letter.code;
        end += letter.width;
    }
    Letters { key, end }
}

// The unit whose spelling has that key.
#[inline(always)]
pub fn unit_of_key(key: u64) -> Option<IntervalUnit>
    ensures { result ≡ by_key key spellings }
{
    match key {
        // c, cent, cents, century, centuries
        3 | 103892 | 3324563 | 3404355161 | 3486059668659 => Some(IntervalUnit::Century),
        // dec, decs, decade, decades
        4259 | 136307 | 139560069 | 4465922227 => Some(IntervalUnit::Decade),
        // y, yr, yrs, year, years
        25 | 818 | 26195 | 824370 | 26379859 => Some(IntervalUnit::Year),
        // mon, mons, month, months
        13806 | 441811 | 14137992 | 452415763 => Some(IntervalUnit::Month),
        // w, week, weeks
        23 | 758955 | 24286579 => Some(IntervalUnit::Week),
        // d, day, days
        4 | 4153 | 132915 => Some(IntervalUnit::Day),
        // h, hr, hrs, hour, hours
        8 | 274 | 8787 | 278194 | 8902227 => Some(IntervalUnit::Hour),
        // m, min, mins, minute, minutes
        13 | 13614 | 435667 | 446125701 | 14276022451 => Some(IntervalUnit::Minute),
        // s, sec, secs, second, seconds
        19 | 19619 | 627827 | 642891204 | 20572518547 => Some(IntervalUnit::Second),
        // ms, msec, msecs, msecond, mseconds, millisecond, milliseconds
        435
        | 445603
        | 14259315
        | 14601534916
        | 467249117331
        | 14966974900714948
        | 478943196822878355 => Some(IntervalUnit::Millisecond),
        // us, usec, usecs, usecond, useconds, microsecond, microseconds
        691
        | 707747
        | 22647923
        | 23191469508
        | 742127024275
        | 14957291896946116
        | 478633340702275731 => Some(IntervalUnit::Microsecond),
        // nanosecond, nanoseconds
        494178506227140 | 15813712199268499 => Some(IntervalUnit::Nanosecond),
        _ => None,
    }
}
