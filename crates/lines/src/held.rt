// A line as far as it has been read. Who holds it sees its bytes by `whole` alone, so that no line too long is taken for one that is not.
ghost use Rattle.std.specs.Prelude.{◌≡◌, ◌==◌, false, suc, ◌<◌, ◌≤◌, [], ◌++◌, None, Some, Option, List, ℕ, length, take, drop, MatchOption};
ghost use Rattle.lines.specs.Line.{before, told};

use crate::input::take_line;
use room::Room;
use std::marker::Model;

// The longest line that is read.
const LONGEST: usize = 65536;

// A line of which one byte more is held is too long, however much comes behind.
const HELD: usize = LONGEST + 1;

#[derive(Drop)]
pub struct HeldLine {
    bytes: Room<HELD>,
}

impl Model for HeldLine {
    ghost Value = { Option (List ℕ) };

    ghost view = { λ l. told 65536 l.bytes };
}

impl HeldLine {
    #[tactic(auto, unfolding(crate::specs::Line::told))]
    pub fn new() -> Self
        ensures { result ≡ Some [] }
    {
        HeldLine { bytes: Room::new() }
    }

    // Puts the bytes up to the next line feed behind the line's, and tells what stands behind that line feed.
    #[tactic(auto, using(crate::proofs::Taking::of_65536))]
    pub fn take<'a>(&mut self, input: &'a [u8]) -> Option<&'a [u8]>
        ensures line_after { (t : List ℕ) → self.old ≡ told 65536 t → self.new ≡ told 65536 (t ++ take (before 0x0A input.now) input.now) }
        ensures rest { MatchOption result (before 0x0A input.now ≡ length input.now) (λ x. (before 0x0A input.now < length input.now) × (x.now ≡ drop (suc (before 0x0A input.now)) input.now)) }
    {
        take_line(input, &mut self.bytes)
    }

    // The line; none where it is longer than 65536 bytes.
    #[tactic(auto, unfolding(crate::specs::Line::told))]
    pub fn whole(&self) -> Option<&[u8]>
        ensures { MatchOption result (self.now ≡ None) (λ x. (self.now ≡ Some x.now) × (length x.now ≤ 65536)) }
    {
        let line = self.bytes.as_bytes();
        if LONGEST < line.len() {
            None
        } else {
            Some(line)
        }
    }

    #[tactic(auto, unfolding(crate::specs::Line::told))]
    pub fn is_empty(&self) -> bool
        ensures { MatchOption self.now (result ≡ false) (λ t. result ≡ (length t == 0)) }
    {
        self.bytes.is_empty()
    }

    #[tactic(auto, unfolding(crate::specs::Line::told))]
    pub fn clear(&mut self)
        ensures { self.new ≡ Some [] }
    {
        self.bytes.clear();
    }
}
