// The components of a text: Rust's `split_interval_components`, one component at a place, with the text and the place by value,
// document 01's cursor, since the place is told where a component goes wrong.
ghost use Rattle.std.specs.Prelude.{◌≡◌, not, cond, ◌≤◌, length, get_or};
ghost use Rattle.amount.specs.Grammar.{precision};
ghost use Rattle.amount.specs.Read.{ReadIs, value_of};
ghost use Rattle.component.specs.Fault.{in_amount};
ghost use Rattle.component.specs.Read.{piece_is, place_after};

use crate::Piece;
use amount::IntervalAmount;
use unit::{Word, words};

// A byte that ends an amount piece: no digit, no point, no minus.
#[inline(always)]
#[tactic(auto, unfolding(crate::specs::Fault::in_amount))]
pub fn not_interval_amount(b: u8) -> bool
    ensures { result ≡ not (in_amount b) }
{
    !matches!(b, b'0'..=b'9' | b'.' | b'-')
}

// Where a component goes wrong whose unit, looked for from `began` on, is none, behind an amount that ends at `end`: there, or at its
// amount, if the amount piece goes on, as in `1-2 days`.
#[inline(always)]
pub fn bad_unit(text: &[u8], at: usize, end: usize, began: usize) -> usize
    ensures { result ≡ cond (in_amount (get_or text.now end 0)) at began }
{
    if not_interval_amount(text::byte_at(text, end)) {
        began
    } else {
        at
    }
}

// A component whose amount stands from `at` to `end`: its unit follows, glued or behind white space, or nothing does.
#[inline(always)]
pub fn unit_at(text: &[u8], at: usize, amount: IntervalAmount, end: usize) -> Result<Piece, usize>
    requires { ReadIs precision text.now at (value_of amount) end }
    ensures { piece_is precision text.now at result }
{
    if text.len() <= end {
        return Ok(Piece::Last(amount, None));
    }
    let from = end + words::white_len(text, end);
    match words::word_at(text, from) {
        Ok(Word::Last(unit)) => Ok(Piece::Last(amount, Some(unit))),
        Ok(Word::More(unit, next)) => Ok(Piece::More(amount, unit, next)),
        Err(began) => Err(bad_unit(text, at, end, began)),
    }
}

// The component at a place.
#[inline(always)]
pub fn split_interval_component(text: &[u8], at: usize) -> Result<Piece, usize>
    requires { at ≤ length text.now }
    ensures { piece_is precision text.now at result }
{
    let (amount, end) = amount::amount_at(text, at)?;
    unit_at(text, at, amount, end)
}

// Where a reader goes on behind a component: it stays where there is none.
#[inline(always)]
#[tactic(auto, unfolding(crate::specs::Read::place_after))]
pub fn place_after(text: &[u8], at: usize, piece: Result<Piece, usize>) -> usize
    ensures { result ≡ place_after text.now at piece }
{
    match piece {
        Ok(Piece::Last(_, _)) => text.len(),
        Ok(Piece::More(_, _, next)) => next,
        Err(_) => at,
    }
}
