// One component of an interval text: an amount and its unit, read at a place.
#![tactic(auto)]

ghost use Rattle.amount.specs.Grammar.{precision};
ghost use Rattle.component.specs.Read.{taken_is};

use amount::IntervalAmount;
use unit::IntervalUnit;

mod reader;
mod split;

// The component at a place: one that ends the text; or one with its unit and the place behind the white space that follows.
// No unit stands for the default.
#[derive(Clone, Copy, Debug, PartialEq, Eq)]
pub enum Piece {
    Last(IntervalAmount, Option<IntervalUnit>),
    More(IntervalAmount, IntervalUnit, usize),
}

// What a reader takes: the component at its place, or where its amount or its unit cannot be read; and the place where it stands behind it.
#[derive(Clone, Copy, Debug, PartialEq, Eq)]
pub struct Taken {
    pub piece: Result<Piece, usize>,
    pub at: usize,
}

// The component at a place of a text, and the place to go on from; past the text's end there is none. Laid into both loops that read components,
// with all that it calls here, in `amount` and in `unit`: with a call, whose answer goes by memory, long intervals take a fifth more.
#[inline(always)]
pub fn component(text: &[u8], at: usize) -> Taken
    ensures { taken_is precision text.now at result }
{
    if text.len() < at {
        return Taken { piece: Err(at), at };
    }
    reader::component_at(text, at)
}
