// What is written: to standard output, with no line end.
use refusal::Refusal;
use site::Marked;
use std::io;

pub fn bytes(out: &impl Print, s: &[u8]) -> io::Result<()> {
    out.write_all(s)
}

// A number of any width.
pub fn number<Z: Into<i64>>(out: &impl Print, z: Z) -> io::Result<()> {
    let z: i64 = z.into();
    print!(out; "{z}")
}

pub fn count(out: &impl Print, n: usize) -> io::Result<()> {
    print!(out; "{n}")
}

pub fn yes_or_no(out: &impl Print, test: bool) -> io::Result<()> {
    bytes(out, if test { b"yes" } else { b"no" })
}

pub fn maybe<Z: Into<i64>>(out: &impl Print, z: Option<Z>) -> io::Result<()> {
    match z {
        Some(z) => number(out, z),
        None => bytes(out, b"none"),
    }
}

pub fn read(out: &impl Print, r: Result<i64, Refusal>) -> io::Result<()> {
    match r {
        Ok(z) => number(out, z),
        Err(why) => refused(out, why),
    }
}

// The nanoseconds, and 1 with the mark, else 0.
pub fn marked(out: &impl Print, r: Result<Marked, Refusal>) -> io::Result<()> {
    match r {
        Ok(x) => {
            number(out, x.nanos)?;
            bytes(out, b" ")?;
            number(out, u8::from(x.leap))
        }
        Err(why) => refused(out, why),
    }
}

pub fn refused(out: &impl Print, why: Refusal) -> io::Result<()> {
    bytes(out, b"refused ")?;
    number(out, why.number())
}

// A text between bars, bytes that do not print as `\xHH`.
pub fn text(out: &impl Print, s: &[u8]) -> io::Result<()> {
    bytes(out, b"|")?;
    for &b in s {
        byte(out, b)?;
    }
    bytes(out, b"|")
}

fn byte(out: &impl Print, b: u8) -> io::Result<()> {
    match b {
        0x20..=0x7E => bytes(out, &[b]),
        _ => print!(out; "\\x{b:02x}"),
    }
}
