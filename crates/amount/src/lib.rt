// Amounts, as Rust's `IntervalAmount::from_str` takes them, read at a place of a text: the place goes by value beside the text, document 01's
// cursor, and is told where there is no amount.
#![tactic(auto)]

ghost use Rattle.amount.specs.Grammar.{precision};
ghost use Rattle.amount.specs.Read.{amount_is};

mod held;
mod parts;

pub use held::IntervalAmount;

// The amount at a place, and where it ends; or none, and that place. A minus is a sign, a plus is none; past the text's end there is none.
#[inline(always)]
pub fn amount_at(text: &[u8], at: usize) -> Result<(IntervalAmount, usize), usize>
    ensures { amount_is precision text.now at result }
{
    if text.len() < at {
        return Err(at);
    }
    let neg = text::byte_at(text, at) == b'-';
    let from = if neg { at + 1 } else { at };
    parts::unsigned_at(text, at, from, neg)
}
