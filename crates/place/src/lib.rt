// Why an interval text is refused, and where.
#![tactic(auto)]

ghost use Rattle.std.specs.Prelude.{◌≡◌, cond, None, Some};
ghost use Rattle.refusal.specs.Outcome.{number_of, number_in};
ghost use Rattle.utf8.specs.Utf8.{utf8};
ghost use Rattle.place.specs.Read.{refusal_of, place_in};

use refusal::Refusal;

// A refusal of an interval text: 8, 9 and 10 have a place, counted in bytes of the text, and 1 and 11 have none.
#[derive(Clone, Copy, Debug, PartialEq, Eq)]
pub enum IntervalRefusal {
    // The bytes are not well-formed UTF-8.
    NotUtf8,
    // The text has no division: where its first bad piece begins.
    Interval(usize),
    // A unit comes twice: where the first component begins whose unit came before.
    RepeatedUnit(usize),
    // A contribution or a running total does not fit: where the first component begins with which that is so.
    Overflow(usize),
    // The narrowed interval form cannot hold the result.
    Narrowed,
}

impl IntervalRefusal {
    // The refusal without its place. By name and no `From`, since no `?` should drop a place unseen.
    pub fn refusal(self) -> Refusal
        ensures { result ≡ refusal_of self }
    {
        match self {
            IntervalRefusal::NotUtf8 => Refusal::NotUtf8,
            IntervalRefusal::Interval(_) => Refusal::Interval,
            IntervalRefusal::RepeatedUnit(_) => Refusal::RepeatedUnit,
            IntervalRefusal::Overflow(_) => Refusal::Overflow,
            IntervalRefusal::Narrowed => Refusal::Narrowed,
        }
    }

    // Its number in document 01's list.
    pub fn number(self) -> u8
        ensures { result ≡ number_of (refusal_of self) }
    {
        self.refusal().number()
    }

    // Its place, where it has one.
    pub fn place(self) -> Option<usize>
        ensures { result ≡ place_in self }
    {
        match self {
            IntervalRefusal::NotUtf8 | IntervalRefusal::Narrowed => None,
            IntervalRefusal::Interval(at)
            | IntervalRefusal::RepeatedUnit(at)
            | IntervalRefusal::Overflow(at) => Some(at),
        }
    }

    // A text without a division, whose first bad piece begins at a place: that its bytes are no UTF-8 comes first, and has no place.
    pub fn bad_piece(text: &[u8], place: usize) -> IntervalRefusal
        ensures { (number_of (refusal_of result) ≡ number_in text.now 8) × (place_in result ≡ cond (utf8 text.now) (Some place) None) }
    {
        if utf8::is_utf8(text) {
            IntervalRefusal::Interval(place)
        } else {
            IntervalRefusal::NotUtf8
        }
    }
}
