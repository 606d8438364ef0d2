// Standard input, line by line. Answers are held back until there are many, or no input is at hand.
ghost use Rattle.std.specs.Prelude.{◌≡◌, ◌≤◌};
ghost use Rattle.std.proofs.Common.{le_refl, le_trans};
ghost use Rattle.cullpethi_cli.specs.declared.Status.TheVariants.{Refused};

use crate::output::{Failure, Streams};
use crate::show::{Out, Outcome};
use crate::{Asked, Status, caret, output, show};
use lines::each::{EachLine, each_line};
use room::Room;

// From so many bytes on answers are written: the room has 65,536, and no answer has 1,024.
const MANY: usize = 64512;

#[derive(Drop)]
struct Lines {
    to: Streams,
    asked: Asked,
    // The answers that are held.
    out: Out,
    // How many lines have been answered.
    count: u64,
    status: Status,
}

// Not laid in, as `one_text`.
#[inline(never)]
pub fn each(to: Streams, asked: Asked) -> Result<Status, Failure> {
    let mut lines = Lines {
        to,
        asked,
        out: Room::new(),
        count: 0,
        status: Status::Read,
    };
    let mut input = to.input;
    each_line(&mut input, &mut lines)?;
    Ok(lines.status)
}

impl EachLine for Lines {
    type Error = Failure;

    // No line is forgotten: none that was answered, and none that was refused.
    ghost keeps = { λ a b. (a.count ≤ b.count) × (a.status ≡ Refused → b.status ≡ Refused) };

    fn line(&mut self, line: Option<&[u8]>) -> Result<(), Failure> {
        // No run counts as far as the greatest number.
        self.count = self.count.saturating_add(1);
        let outcome = show::line(self.asked, self.count, line, &mut self.out);
        if let Outcome::Refused(place) = outcome {
            self.status = Status::Refused;
            self.point(line, place)?;
        }
        if MANY <= self.out.as_bytes().len() {
            self.pause()?;
        }
        Ok(())
    }

    // Writes the answers that are held.
    fn pause(&mut self) -> Result<(), Failure> {
        output::written(self.to, self.out.as_bytes())?;
        self.out.clear();
        Ok(())
    }

    ghost stays = { λ a. (le_refl a.count, λ refused. refused) };

    ghost goes_on = { λ a b c p q. (le_trans p.0 q.0, λ refused. q.1 (p.1 refused)) };
}

impl Lines {
    // Writes the answers that are held, and below the last of them its text with a caret.
    fn point(&mut self, line: Option<&[u8]>, place: Option<usize>) -> Result<(), Failure>
        ensures { (self.old.count ≤ self.new.count) × (self.old.status ≡ Refused → self.new.status ≡ Refused) }
    {
        if let (true, Some(line), Some(place)) = (self.asked.caret, line, place) {
            self.pause()?;
            caret::below(self.to, line, place)?;
        }
        Ok(())
    }
}
