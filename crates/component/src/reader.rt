// A reader that holds a text and its place in it, and moves on, as document 01 names it: thin functions over `split_interval_component` and
// `place_after`, which do the work.
ghost use Rattle.std.specs.Prelude.{◌≡◌, ◌≤◌, length};
ghost use Rattle.amount.specs.Grammar.{precision};
ghost use Rattle.component.specs.Read.{piece_is, place_after, taken_is};

use crate::{Piece, Taken, split};

// A lent text, and a place in it.
#[derive(Clone, Copy)]
pub struct Reader<'a> {
    pub text: &'a [u8],
    pub at: usize,
}

impl<'a> Reader<'a> {
    // At a place of a text.
    #[inline(always)]
    pub fn new(text: &'a [u8], at: usize) -> Reader<'a>
        ensures { (result.text ≡ text.entry) × (result.at ≡ at) }
    {
        Reader { text, at }
    }

    // Where it stands.
    #[inline(always)]
    pub fn at(self) -> usize
        ensures { result ≡ self.entry.at }
    {
        self.at
    }

    // The component at its place.
    #[inline(always)]
    pub fn next(self) -> Result<Piece, usize>
        requires { self.at ≤ length self.text.now }
        ensures { piece_is precision self.entry.text.now self.entry.at result }
    {
        split::split_interval_component(self.text, self.at)
    }

    // Moved on behind a component that was read at its place.
    #[inline(always)]
    pub fn after(self, piece: Result<Piece, usize>) -> Reader<'a>
        ensures { (result.text ≡ self.entry.text) × (result.at ≡ place_after self.entry.text.now self.entry.at piece) }
    {
        let at = split::place_after(self.text, self.at, piece);
        Reader {
            text: self.text,
            at,
        }
    }
}

// The component at a place of a text and where a reader goes from there, by one that is made here, so that a caller holds none.
#[inline(always)]
pub fn component_at(text: &[u8], at: usize) -> Taken
    requires { at ≤ length text.now }
    ensures { taken_is precision text.now at result }
{
    let reader = Reader::new(text, at);
    let piece = reader.next();
    let at = reader.after(piece).at();
    Taken { piece, at }
}
