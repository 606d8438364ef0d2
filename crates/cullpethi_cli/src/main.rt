// The command line: reads a text, or each line of standard input, by the reader that is named, and writes the counts or the refusal; or prints
// an interval; or writes a keypad text.
#![tactic(auto)]

use names::{Reader, Task};
use output::{Failure, Streams};
use room::Room;
use show::Outcome;
use std::env::Env;
use std::io::IsTerminal;
use std::process::ExitCode;
use words::{ONE_NUMBER, Source, THREE_NUMBERS, Words};

mod answer;
mod caret;
mod help;
mod input;
mod names;
mod numbers;
mod output;
mod show;
mod words;

// The exit status.
#[derive(Clone, Copy)]
pub enum Status {
    // Each text was read.
    Read = 0,
    // A text was refused, or too long.
    Refused = 1,
    // Bad usage, or no input or output.
    Failed = 2,
}

// What is asked of each text.
#[derive(Clone, Copy)]
pub struct Asked {
    pub reader: Reader,
    // Whether the line's number goes in front.
    pub number: bool,
    // Whether a line of standard input that is refused at a place is shown with a caret below it.
    pub caret: bool,
}

fn main(rt: HostRuntime) -> ExitCode {
    let to = Streams {
        input: rt.stdin(),
        output: rt.stdout(),
        errors: rt.stderr(),
        alloc: rt.alloc(),
    };
    let status = match command(&rt, to) {
        Ok(status) => status,
        Err(why) => {
            output::failed(to, why);
            Status::Failed
        }
    };
    ExitCode::from(status as u8)
}

fn command(env: &impl Env, to: Streams) -> Result<Status, Failure> {
    let words = words::all(env, to)?;
    if words.version {
        return help::version(to);
    }
    match words.task {
        Some(task) if words.help => help::one(to, task),
        Some(Task::Read(reader)) => with_reader(env, to, words, reader),
        Some(Task::PrintInterval) => printed(to, words),
        Some(Task::Keypad) => keypad(to, words),
        None if words.help => help::all(to),
        None => Err(output::bad_usage(to, b"no reader is named")),
    }
}

fn with_reader(
    env: &impl Env,
    to: Streams,
    words: Words,
    reader: Reader,
) -> Result<Status, Failure> {
    let asked = Asked {
        reader: words.with_default(reader),
        number: words.number,
        caret: to.output.is_terminal(),
    };
    match words.source {
        Some(Source::Argument(at)) => one_text(env, to, at, asked),
        Some(Source::Input) | None => input::each(to, asked),
    }
}

fn printed(to: Streams, words: Words) -> Result<Status, Failure> {
    let Some(interval) = words.numbers.interval() else {
        return Err(output::bad_usage(to, THREE_NUMBERS));
    };
    let mut out = Room::new();
    let outcome = show::printed(interval, words.number, &mut out);
    output::written(to, out.as_bytes())?;
    Ok(outcome.status())
}

fn keypad(to: Streams, words: Words) -> Result<Status, Failure> {
    let Some(k) = words.keypad else {
        return Err(output::bad_usage(to, ONE_NUMBER));
    };
    let mut out = Room::new();
    let outcome = show::keypad(k, words.number, &mut out);
    output::written(to, out.as_bytes())?;
    Ok(outcome.status())
}

// The argument is there, so all that can be wrong is its length. Not laid in, so that its room does not stand on the stack beside that of lines.
#[inline(never)]
fn one_text(env: &impl Env, to: Streams, at: usize, asked: Asked) -> Result<Status, Failure> {
    // What `arg` fills.
    let mut space = [0u8; 65536];
    match env.arg(at, &mut space) {
        Ok(n) => answered(to, Some(&space[..n]), asked),
        Err(_) => answered(to, None, asked),
    }
}

fn answered(to: Streams, text: Option<&[u8]>, asked: Asked) -> Result<Status, Failure> {
    let mut out = Room::new();
    let outcome = show::line(asked, 1, text, &mut out);
    output::written(to, out.as_bytes())?;
    if let (Outcome::Refused(Some(place)), Some(text)) = (outcome, text) {
        caret::below(to, text, place)?;
    }
    Ok(outcome.status())
}
