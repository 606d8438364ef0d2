// The components of a text, added up as they are read: Rust's `parse_interval_components` and the fold of `Interval::parse`, in one pass.
ghost use Rattle.std.specs.Prelude.{◌≡◌, cond, None, Some};
ghost use Rattle.refusal.specs.Outcome.{refused};
ghost use Rattle.amount.specs.Grammar.{precision};
ghost use Rattle.amount.specs.Read.{value_of};
ghost use Rattle.rule.specs.Contribution.{contribution};
ghost use Rattle.rule.specs.Answer.{on_totals, month_day_nano};
ghost use Rattle.place.specs.Where.{or_later, place};
ghost use Rattle.total.specs.Read.{interval_outcome, place_read};
ghost use Rattle.total.specs.Helpers.{on_added, totals_of, unfit_of, unfit_with, came};

use crate::{Interval, IntervalParseConfig};
use amount::IntervalAmount;
use component::Piece;
use count::{Days, Months, Nanos};
use place::IntervalRefusal;
use unit::IntervalUnit;

// Where the first component begins with which a unit came again, with one component more, which begins at a place.
#[tactic(auto, using(crate::proofs::Folding::or_is))]
pub fn first_again(repeated: Option<usize>, again: bool, at: usize) -> Option<usize>
    ensures { result ≡ or_later repeated (cond again (Some at) None) }
{
    repeated.or(again.then_some(at))
}

// The running totals with one component more, which begins at a place; or where the first begins with which a contribution or a total
// did not fit.
#[tactic(auto, unfolding(crate::specs::Helpers::on_added, place::specs::Where::or_later))]
pub fn add_component(
    total: Result<Interval, usize>,
    amount: IntervalAmount,
    unit: IntervalUnit,
    at: usize,
) -> Result<Interval, usize>
    ensures { (totals_of result ≡ on_added (totals_of total) (contribution precision unit (value_of amount))) × (unfit_of result ≡ or_later (unfit_of total) (unfit_with (totals_of total) (contribution precision unit (value_of amount)) at)) }
{
    let total = total?;
    total.add(amount, unit).ok_or(at)
}

// The answer where the text is read to its end: a repeated unit comes before a count that does not fit.
#[tactic(auto, unfolding(crate::specs::Helpers::came, rule::specs::Answer::on_totals, place::specs::Where::or_later))]
pub fn settled(
    repeated: Option<usize>,
    total: Result<Interval, usize>,
) -> Result<Interval, IntervalRefusal>
    ensures { (interval_outcome result ≡ cond (came repeated) (refused 9) (on_totals (totals_of total))) × (place_read result ≡ or_later repeated (unfit_of total)) }
{
    match (repeated, total) {
        (Some(first), _) => Err(IntervalRefusal::RepeatedUnit(first)),
        (None, Ok(interval)) => Ok(interval),
        (None, Err(first)) => Err(IntervalRefusal::Overflow(first)),
    }
}

// Units are marked as they come, so that one that comes again is told only where the whole text has been read. A `loop`, which goes on from
// where the reader stands, and counts nothing; two matches, since neither of one over `Ok(Piece::..)` nor of `map_err` the proof closed.
pub fn parse_interval_components(
    value: &[u8],
    default_unit: IntervalUnit,
) -> Result<Interval, IntervalRefusal>
    ensures { (interval_outcome result ≡ month_day_nano precision default_unit value.now) × (place_read result ≡ place precision default_unit value.now) }
{
    let mut at: usize = 0;
    // A mark for each unit, by its number: nothing is allocated.
    let mut seen = [false; 12];
    let mut repeated = None;
    let mut total = Ok(Interval {
        months: Months(0),
        days: Days(0),
        nanos: Nanos(0),
    });
    loop {
        let start = at;
        let taken = component::component(value, start);
        at = taken.at;
        let piece = match taken.piece {
            Ok(piece) => piece,
            Err(place) => return Err(IntervalRefusal::bad_piece(value, place)),
        };
        match piece {
            Piece::Last(amount, word) => {
                let unit = word.unwrap_or(default_unit);
                let k = unit.mark();
                let again = first_again(repeated, seen[k], start);
                return settled(again, add_component(total, amount, unit, start));
            }
            Piece::More(amount, unit, _) => {
                let k = unit.mark();
                repeated = first_again(repeated, seen[k], start);
                seen[k] = true;
                total = add_component(total, amount, unit, start);
            }
        }
    }
}

impl Interval {
    pub fn parse(value: &[u8], config: IntervalParseConfig) -> Result<Interval, IntervalRefusal>
        ensures answer { interval_outcome result ≡ month_day_nano precision config.default_unit value.now }
        ensures place { place_read result ≡ place precision config.default_unit value.now }
    {
        parse_interval_components(value, config.default_unit)
    }
}
