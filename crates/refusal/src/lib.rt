// Why a text is refused: the list of document 01, in checking order; and behind it why a whole call is (document 02).
#![tactic(auto)]

ghost use Rattle.std.specs.Prelude.{◌≡◌};
ghost use Rattle.refusal.specs.Outcome.{number_of, number_in};

// Each with its number in document 01's list and document 02.
#[derive(Clone, Copy, Debug, PartialEq, Eq)]
pub enum Refusal {
    // The bytes are not well-formed UTF-8.
    NotUtf8 = 1,
    // No date: no shape of one, no day of the calendar, or a stamp of fewer than 10 bytes.
    Date = 2,
    // Byte 10 of a longer stamp is not T, t or a space.
    Separator = 3,
    // No time part of a stamp, or a field of it is out of range.
    Time = 4,
    // Bytes remain after the time that are neither a single final z or Z nor of an offset's shape.
    Tail = 5,
    // The hours or minutes of an offset are out of range.
    Offset = 15,
    // The nanoseconds do not fit 64 signed bits, or the day number does not fit 32.
    Range = 6,
    // A time-of-day text is neither a time nor, for a time column, an integer of its width.
    TimeOfDay = 7,
    // An interval text has no division.
    Interval = 8,
    // A unit comes twice.
    RepeatedUnit = 9,
    // A contribution or a running total does not fit.
    Overflow = 10,
    // The narrowed interval form cannot hold the result.
    Narrowed = 11,
    // The plain stamp reader accepts the text, but it is no site stamp.
    SiteStamp = 12,
    // The ends of a column's texts fall or pass the bytes, or there are fewer cells than ends.
    Column = 13,
    // The buffer is too short.
    Buffer = 14,
    // The bytes are no whole number of records.
    Records = 16,
    // No keypad text has this number.
    Keypad = 17,
}

impl Refusal {
    // The number of a refusal in document 01's list and document 02.
    pub fn number(self) -> u8
        ensures { result ≡ number_of self }
    {
        self as u8
    }

    // A refusal of a text: that its bytes are no UTF-8 comes first.
    pub fn of(self, text: &[u8]) -> Refusal
        ensures { number_of result ≡ number_in text.now (number_of self) }
    {
        if utf8::is_utf8(text) {
            self
        } else {
            Refusal::NotUtf8
        }
    }
}
