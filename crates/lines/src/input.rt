// Lines of an input that comes in pieces.
ghost use Rattle.std.specs.Prelude.{◌≡◌, suc, ◌<◌, length, take, drop, MatchOption};
ghost use Rattle.lines.specs.Line.{before};
ghost use Rattle.room.specs.Room.{appended};

use room::Room;

// The place of the first such byte.
fn find(s: &[u8], b: u8) -> Option<usize>
    ensures { MatchOption result (before b s.now ≡ length s.now) (λ i. (i ≡ before b s.now) × (i < length s.now)) }
{
    s.iter().position(|&x| x == b)
}

// What stands before the first such byte, and what behind it.
pub fn split_once(s: &[u8], b: u8) -> Option<(&[u8], &[u8])>
    ensures { MatchOption result (before b s.now ≡ length s.now) (λ x. (before b s.now < length s.now) × (x.0.now ≡ take (before b s.now) s.now) × (x.1.now ≡ drop (suc (before b s.now)) s.now)) }
{
    let at = find(s, b)?;
    Some((&s[..at], &s[at + 1..]))
}

// Puts the bytes up to the next line feed behind those of the line that are held, and tells what stands behind that line feed.
// Where none comes, the line goes on in the next piece.
pub fn take_line<'a, const N: usize>(input: &'a [u8], line: &mut Room<N>) -> Option<&'a [u8]>
    ensures line_after { line.new ≡ appended N line.old (take (before 0x0A input.now) input.now) }
    ensures rest { MatchOption result (before 0x0A input.now ≡ length input.now) (λ x. (before 0x0A input.now < length input.now) × (x.now ≡ drop (suc (before 0x0A input.now)) input.now)) }
{
    match split_once(input, b'\n') {
        Some((end, rest)) => {
            line.put(end);
            Some(rest)
        }
        None => {
            line.put(input);
            None
        }
    }
}
