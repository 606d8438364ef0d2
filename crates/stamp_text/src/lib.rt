// The texts of stamps: their grammar, what they name and why they are refused, stated and proved of the definitions alone. The code that
// reads them is in `timestamp`.
#![tactic(auto)]
