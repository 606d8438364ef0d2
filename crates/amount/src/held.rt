// An amount as the code holds it, in a file of its own, since what the contracts say of answers names it.
ghost use Rattle.amount.specs.Proper.{Proper};

// An amount: its whole part, and its fraction times ten to the limit of fraction digits; both carry the sign.
#[derive(Clone, Copy, Debug, PartialEq, Eq)]
pub struct IntervalAmount {
    pub integer: i64,
    pub frac: i64,
    pub ghost proper: { Proper integer frac },
}
