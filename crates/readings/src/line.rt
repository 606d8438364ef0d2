// A line: a reader's name and the text, parted by a space.
ghost use Rattle.std.specs.Prelude.{⊤};

use crate::{answer, show};
use lines::each::EachLine;
use lines::escape::unescape;
use lines::input::split_once;
use room::Room;
use std::io;

#[derive(Drop)]
pub struct Readings<'a, P: Print> {
    pub out: &'a P,
}

impl<P: Print> EachLine for Readings<'_, P> {
    type Error = io::Error;

    // Nothing is held from line to line.
    ghost keeps = { λ _ _. ⊤ };

    fn line(&mut self, line: Option<&[u8]>) -> io::Result<()> {
        match line {
            Some(line) => shown(self.out, line),
            None => show::bytes(self.out, b"a line longer than 65536 bytes is not read\n"),
        }
    }

    ghost stays = { λ _. tt };

    ghost goes_on = { λ _ _ _ _ _. tt };
}

fn shown(out: &impl Print, line: &[u8]) -> io::Result<()> {
    show::bytes(out, line)?;
    if !matches!(line, [] | [b'#', ..]) {
        show::bytes(out, b" = ")?;
        answered(out, line)?;
    }
    show::bytes(out, b"\n")
}

fn answered(out: &impl Print, line: &[u8]) -> io::Result<()> {
    let Some((name, written)) = split_once(line, b' ') else {
        return answer::of(out, line, b"");
    };
    let mut text = Room::<65536>::new();
    unescape(written, &mut text);
    answer::of(out, name, text.as_bytes())
}
