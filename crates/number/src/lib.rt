// Numbers of a width: Rust's `str::parse` on bytes, sign and size.
#![tactic(auto)]

pub mod checked;
pub mod parse;
pub mod sign;
