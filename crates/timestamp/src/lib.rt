// Stamps: RFC 3339 timestamps, and the forms close to them that the Rust reads; the moment is in UTC.
#![tactic(auto)]

pub mod stamp;
