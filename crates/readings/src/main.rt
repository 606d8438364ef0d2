// Reads lines `READER TEXT` from standard input and writes each with its answer. In a text `\xHH` is a byte. An empty line and one
// that begins with # are written as they are.
#![tactic(auto)]

use line::Readings;
use lines::each::each_line;
use std::io;

mod answer;
mod columns;
mod conversion;
mod intervals;
mod line;
mod printing;
mod show;
mod whole;

fn main(rt: HostRuntime) -> io::Result<()> {
    each_line(&mut rt.stdin(), &mut Readings { out: &rt })
}
