// Whole columns of texts: what they answer, stated over any reader of a text and proved of the definitions alone. The code that follows it
// is in `parse_column`.
#![tactic(auto)]
