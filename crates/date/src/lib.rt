// Dates.
#![tactic(auto)]

pub mod days;
