// What is written to standard output and to standard error.
use room::Room;
use std::alloc::Global;
use std::io;
use std::io::{Stderr, Stdin, Stdout};

// Where the program reads and writes.
#[derive(Clone, Copy)]
pub struct Streams {
    pub input: Stdin,
    pub output: Stdout,
    pub errors: Stderr,
    pub alloc: Global,
}

// Why the program ends before its time.
#[derive(Drop)]
pub enum Failure {
    // Bad usage, of which standard error tells already.
    Usage,
    // Standard input cannot be read.
    Input(io::Error),
    // Standard output cannot be written.
    Output(io::Error),
}

impl From<io::Error> for Failure {
    fn from(why: io::Error) -> Failure {
        Failure::Input(why)
    }
}

pub fn written(to: Streams, out: &[u8]) -> Result<(), Failure> {
    to.output.write_all(out).map_err(Failure::Output)
}

// Says what failed, and why.
pub fn failed(to: Streams, why: Failure) {
    match why {
        Failure::Usage => (),
        Failure::Input(why) => failed_by(to, b"standard input", why),
        Failure::Output(why) => failed_by(to, b"standard output", why),
    }
}

// The system's words, without the number that stands behind them.
fn failed_by(to: Streams, what: &[u8], why: io::Error) {
    match why.to_string(to.alloc) {
        Ok(text) => said(to, &[what, b": ", words_of(text.as_str()).as_bytes()]),
        Err(_) => said(to, &[what, b": out of memory"]),
    }
}

fn words_of(text: &str) -> &str {
    match text.split_once(" (os error ") {
        Some((words, _)) => words,
        None => text,
    }
}

// One line on standard error, behind the program's name.
pub fn said(to: Streams, parts: &[&[u8]]) {
    let mut line = Room::<4096>::new();
    line.put(b"cullpethi: ");
    for part in parts {
        line.put(part);
    }
    line.put(b"\n");
    let _ = to.errors.write_all(line.as_bytes());
}

pub fn bad_usage(to: Streams, what: &[u8]) -> Failure {
    said(to, &[what, b" (see cullpethi --help)"]);
    Failure::Usage
}

// A word of the command line that is bad is named.
pub fn bad_word(to: Streams, what: &[u8], word: &[u8]) -> Failure {
    said(to, &[what, b": '", word, b"' (see cullpethi --help)"]);
    Failure::Usage
}
