// Reads lines `READER ANSWER TEXT` from standard input, the Rust's answers (`oracle/run stored`), and compares each with the library's.
// Writes each line that differs with what was found, and at the end how many passed and failed.
#![tactic(auto)]

use lines::each::each_line;
use std::io;
use tally::Tally;

mod answer;
mod line;
mod reader;
mod tally;

fn main(rt: HostRuntime) -> io::Result<()> {
    let mut tally = Tally::new(&rt);
    each_line(&mut rt.stdin(), &mut tally)?;
    let passed = tally.passed;
    let failed = tally.failed;
    println!(rt; "{passed} passed, {failed} failed")
}
