// A line: a reader's name, the stored answer and the text, parted by spaces.
use crate::answer::Answer;
use crate::reader;
use lines::escape::unescape;
use lines::input::split_once;
use room::Room;
use std::io;

// Whether the library answers what is stored; else the line is written, with what was found.
pub fn passes(out: &impl Print, line: &[u8]) -> io::Result<bool> {
    let Some((name, rest)) = split_once(line, b' ') else {
        return failed(out, line, b"no answer");
    };
    let Some((stored, written)) = split_once(rest, b' ') else {
        return failed(out, line, b"no text");
    };
    let Some(found) = answered(name, written) else {
        return failed(out, line, b"");
    };
    if agree(stored, found.as_bytes()) {
        return Ok(true);
    }
    failed(out, line, found.as_bytes())
}

// What the library answers to a text that a line writes; nothing where there is no such reader. In a function of its own, so that no room is made
// for a line that has no text.
fn answered(name: &[u8], written: &[u8]) -> Option<Answer> {
    let mut text = Room::<65536>::new();
    unescape(written, &mut text);
    reader::of(name, text.as_bytes())
}

// Whether the answers agree; where the Rust does not tell the number of a refusal, 2 and 6 are possible.
fn agree(stored: &[u8], found: &[u8]) -> bool {
    match stored {
        b"r?" => matches!(found, b"r2" | b"r6"),
        _ => stored == found,
    }
}

fn failed(out: &impl Print, line: &[u8], found: &[u8]) -> io::Result<bool> {
    out.write_all(line)?;
    out.write_all(b" found ")?;
    out.write_all(found)?;
    out.write_all(b"\n")?;
    Ok(false)
}
