// An input line by line, however long it is.
use crate::held::HeldLine;
use std::io;
use std::io::Read;

// What is done with the lines of an input.
pub trait EachLine {
    // Why no more of them are read.
    type Error: From<io::Error>;

    // What each call keeps of what was held before it.
    ghost keeps: { Self → Self → Type 0 };

    // A line without its line feed; none where it is longer than 65536 bytes.
    fn line(&mut self, line: Option<&[u8]>) -> Result<(), Self::Error>
        ensures { keeps self.old self.new };

    // The bytes behind the last line feed.
    fn unended(&mut self, line: Option<&[u8]>) -> Result<(), Self::Error>
        ensures { keeps self.old self.new }
    {
        self.line(line)
    }

    // What is to be done before more input is waited for.
    fn pause(&mut self) -> Result<(), Self::Error>
        ensures { keeps self.old self.new }
    {
        Ok(())
    }

    ghost stays: { (a : Self) → keeps a a };

    ghost goes_on: { (a b c : Self) → keeps a b → keeps b c → keeps a c };
}

// What each call keeps the whole keeps.
pub fn each_line<E: EachLine>(input: &mut impl Read, each: &mut E) -> Result<(), E::Error>
    ensures { E.keeps each.old each.new }
{
    let mut line = HeldLine::new();
    // What `read` fills.
    let mut piece = [0u8; 65536];
    // A proved loop has to end, and nothing says that the input does: no run uses up so many turns.
    for _ in 0..u64::MAX {
        let n = input.read(&mut piece)?;
        if n == 0 {
            break;
        }
        each_in(&piece[..n], &mut line, each)?;
        each.pause()?;
    }
    if line.is_empty() {
        return Ok(());
    }
    each.unended(line.whole())?;
    each.pause()
}

// Each line that ends in these bytes; the rest is held.
fn each_in<E: EachLine>(input: &[u8], line: &mut HeldLine, each: &mut E) -> Result<(), E::Error>
    ensures { E.keeps each.old each.new }
{
    let mut rest = input;
    while let Some(behind) = line.take(rest) {
        each.line(line.whole())?;
        line.clear();
        rest = behind;
    }
    Ok(())
}
