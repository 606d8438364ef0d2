// The interval rule: what an interval text means, stated and proved of the definitions alone. The code that follows it is in `total` and
// `interval`.
#![tactic(auto)]
