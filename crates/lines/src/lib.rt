// Lines as the programs read them. What is read no contract can say; how much of it is one line is said of `take_line`; that a line is too long, of
// `held::HeldLine`, by which `each_line` reads; what is kept from line to line, of `each_line`.
#![tactic(auto)]

pub mod each;
pub mod escape;
mod held;
pub mod input;
pub mod names;
