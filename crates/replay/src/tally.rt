// How many lines passed and failed.
ghost use Rattle.std.specs.Prelude.{◌≤◌};
ghost use Rattle.std.proofs.Common.{le_refl, le_trans};

use crate::line;
use lines::each::EachLine;
use std::io;

#[derive(Drop)]
pub struct Tally<'a, P: Print> {
    out: &'a P,
    pub passed: u64,
    pub failed: u64,
}

impl<'a, P: Print> Tally<'a, P> {
    pub fn new(out: &'a P) -> Self {
        Tally {
            out,
            passed: 0,
            failed: 0,
        }
    }

    // No run counts as far as the greatest number. By what a line told: no step is chosen by the caller.
    fn count(&mut self, passed: bool)
        ensures { (self.old.passed ≤ self.new.passed) × (self.old.failed ≤ self.new.failed) }
    {
        if passed {
            self.passed = self.passed.saturating_add(1);
        } else {
            self.failed = self.failed.saturating_add(1);
        }
    }
}

impl<P: Print> EachLine for Tally<'_, P> {
    type Error = io::Error;

    // No line that was counted is forgotten.
    ghost keeps = { λ a b. (a.passed ≤ b.passed) × (a.failed ≤ b.failed) };

    fn line(&mut self, line: Option<&[u8]>) -> io::Result<()> {
        let passed = match line {
            Some(line) => line::passes(self.out, line)?,
            None => false,
        };
        self.count(passed);
        Ok(())
    }

    // A last line that no line feed ends was cut short.
    fn unended(&mut self, _line: Option<&[u8]>) -> io::Result<()> {
        self.count(false);
        Ok(())
    }

    ghost stays = { λ a. (le_refl a.passed, le_refl a.failed) };

    ghost goes_on = { λ a b c p q. (le_trans p.0 q.0, le_trans p.1 q.1) };
}
