// The text that was refused, and a caret below the place that its refusal tells.
use crate::output;
use crate::output::{Failure, Streams};
use room::Room;

// Writes both lines.
pub fn below(to: Streams, text: &[u8], place: usize) -> Result<(), Failure> {
    let mut blanks = Room::<65536>::new();
    put_blanks(text.get(..place).unwrap_or(text), &mut blanks);
    output::written(to, text)?;
    output::written(to, b"\n")?;
    output::written(to, blanks.as_bytes())?;
    output::written(to, b"^\n")
}

// What stands in front of the caret, so that it comes under the right character: white space as it is; of any other character a space for its
// first byte, and nothing for a later one.
fn put_blanks(text: &[u8], out: &mut Room<65536>) {
    let mut rest = text;
    while let [first, behind @ ..] = rest {
        let white = white::white_at(rest, 0);
        if white != 0 {
            out.put(&rest[..white]);
            rest = &rest[white..];
        } else {
            if *first & 0xC0 != 0x80 {
                out.put(b" ");
            }
            rest = behind;
        }
    }
}
