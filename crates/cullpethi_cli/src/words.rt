// The words of the command line.
use crate::names::{Reader, Task};
use crate::numbers::{Numbers, whole};
use crate::output::{Failure, Streams};
use crate::{help, output};
use lines::input::split_once;
use std::env::{Env, FillError};
use unit::IntervalUnit;

// What is said where there are other words.
pub const THREE_NUMBERS: &[u8] =
    b"print_interval takes three whole numbers, months and days of 32 bits, nanoseconds of 64";

pub const ONE_NUMBER: &[u8] = b"keypad takes one whole number from 0 on, of 64 bits";

// Where the texts come from.
#[derive(Clone, Copy)]
pub enum Source {
    // The argument of that number is the text.
    Argument(usize),
    // Standard input is named, by `-`.
    Input,
}

// What the next word is.
#[derive(Clone, Copy)]
enum Expected {
    // An option, or else the reader, the text or a number.
    Any,
    // The unit of `--default`.
    Unit,
    // The reader, the text or a number: `--` has ended the options.
    Operand,
}

// What the words up to some place say.
#[derive(Clone, Copy)]
pub struct Words {
    pub task: Option<Task>,
    // The unit of `--default`.
    unit: Option<IntervalUnit>,
    pub help: bool,
    pub version: bool,
    pub number: bool,
    pub source: Option<Source>,
    // Those of `print_interval`.
    pub numbers: Numbers,
    // That of `keypad`.
    pub keypad: Option<u64>,
    expected: Expected,
}

// What the words behind the program's name say.
pub fn all(env: &impl Env, to: Streams) -> Result<Words, Failure> {
    let mut words = Words {
        task: None,
        unit: None,
        help: false,
        version: false,
        number: false,
        source: None,
        numbers: Numbers::none(),
        keypad: None,
        expected: Expected::Any,
    };
    // What `arg` fills.
    let mut space = [0u8; 4096];
    // By number: the library's `args` allocates.
    for at in 1..usize::MAX {
        match env.arg(at, &mut space) {
            Ok(n) => words.take(to, &space[..n], at)?,
            // A longer word is a text, or else bad: it is none of the words below.
            Err(FillError::TooLong) => words.take(to, b"", at)?,
            Err(FillError::NotPresent) => break,
        }
    }
    words.check(to)?;
    Ok(words)
}

impl Words {
    // The reader, with the unit of `--default`.
    pub fn with_default(&self, reader: Reader) -> Reader {
        match (self.unit, reader) {
            (Some(unit), Reader::Interval) => Reader::IntervalIn(unit),
            (Some(unit), Reader::List) => Reader::ListIn(unit),
            _ => reader,
        }
    }

    // What only the end can tell.
    fn check(&self, to: Streams) -> Result<(), Failure> {
        if let Expected::Unit = self.expected {
            return Err(output::bad_usage(to, b"no unit behind --default"));
        }
        match (self.unit, self.task) {
            (None, _) | (_, None | Some(Task::Read(Reader::Interval | Reader::List))) => Ok(()),
            (Some(_), Some(_)) => {
                let what = b"--default is for interval and list alone";
                Err(output::bad_usage(to, what))
            },
        }
    }

    fn take(&mut self, to: Streams, word: &[u8], at: usize) -> Result<(), Failure> {
        match self.expected {
            Expected::Any => self.take_any(to, word, at),
            Expected::Unit => self.take_unit(to, word),
            Expected::Operand => self.take_operand(to, word, at),
        }
    }

    fn take_any(&mut self, to: Streams, word: &[u8], at: usize) -> Result<(), Failure> {
        match word {
            b"--" => self.expected = Expected::Operand,
            b"-h" | b"--help" => self.help = true,
            b"-V" | b"--version" => self.version = true,
            b"--number" => self.number = true,
            b"--default" => self.expected = Expected::Unit,
            b"-" => return self.take_input(to),
            _ => {
                return match split_once(word, b'=') {
                    Some((b"--default", unit)) => self.take_unit(to, unit),
                    _ => self.take_operand(to, word, at),
                };
            }
        }
        Ok(())
    }

    fn take_unit(&mut self, to: Streams, word: &[u8]) -> Result<(), Failure> {
        let Some(unit) = IntervalUnit::from_str(word) else {
            return Err(output::bad_word(to, b"no such unit", word));
        };
        self.unit = Some(unit);
        self.expected = Expected::Any;
        Ok(())
    }

    // Standard input takes the place of a text.
    fn take_input(&mut self, to: Streams) -> Result<(), Failure> {
        match self.task {
            None => return Err(no_such_reader(to, b"-")),
            Some(Task::PrintInterval) => return self.take_number(to, b"-"),
            Some(Task::Keypad) => return self.take_keypad(to, b"-"),
            Some(Task::Read(_)) => (),
        }
        if self.source.is_some() {
            return Err(output::bad_word(to, b"more than one text", b"-"));
        }
        self.source = Some(Source::Input);
        Ok(())
    }

    // The first word is the reader, the second the text; or numbers follow.
    fn take_operand(&mut self, to: Streams, word: &[u8], at: usize) -> Result<(), Failure> {
        match self.task {
            None => self.take_task(to, word),
            Some(Task::Read(_)) => self.take_text(to, word, at),
            Some(Task::PrintInterval) => self.take_number(to, word),
            Some(Task::Keypad) => self.take_keypad(to, word),
        }
    }

    fn take_task(&mut self, to: Streams, word: &[u8]) -> Result<(), Failure> {
        self.task = Task::named(word);
        match self.task {
            Some(_) => Ok(()),
            None => Err(no_such_reader(to, word)),
        }
    }

    fn take_text(&mut self, to: Streams, word: &[u8], at: usize) -> Result<(), Failure> {
        if self.source.is_some() {
            let what = b"more than one text; one with spaces stands in quotes";
            return Err(output::bad_word(to, what, word));
        }
        self.source = Some(Source::Argument(at));
        Ok(())
    }

    fn take_number(&mut self, to: Streams, word: &[u8]) -> Result<(), Failure> {
        if !self.numbers.take(word) {
            return Err(output::bad_word(to, THREE_NUMBERS, word));
        }
        Ok(())
    }

    fn take_keypad(&mut self, to: Streams, word: &[u8]) -> Result<(), Failure> {
        let (None, Some(k)) = (self.keypad, whole(word)) else {
            return Err(output::bad_word(to, ONE_NUMBER, word));
        };
        self.keypad = Some(k);
        Ok(())
    }
}

fn no_such_reader(to: Streams, word: &[u8]) -> Failure {
    let why = output::bad_word(to, b"no such reader", word);
    help::names(to);
    why
}
