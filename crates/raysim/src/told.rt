// What is told on standard error, and explanations. Where that can't be written either, nothing is left to tell it to.

use crate::reasons::{Known, tell_reason};
use raysim_commands::{CommandRefusal, Failure, Tracked, exit_status, put_all};
use raysim_explain::RefusalCause;
use raysim_files::WithError;
use refusal_reasons::{Ending, ListKind, NearNames, refusal_named};
use std::fmt::Display;
use std::io;
use std::io::ErrorKind;
use std::process::ExitCode;

/// What the standard output is called.
pub const OUTPUT: &str = "the standard output";

/// Why a word names nothing of a run.
pub const NO_NAME: &str = "is no object, worker or node: they are written as o1.2, w3 and n1";

/// The most that is kept of a plan, and of a list's settle lines.
const MOST_OF_A_PLAN: &str = "262,144 lines of a plan that say something";

const MOST_OF_SETTLES: &str =
    "1,048,576 bytes of settle lines in all, their line feeds not counted";

/// Why a command stops, or a part of it.
#[derive(Clone, Copy)]
pub enum Stop<'a> {
    /// It refuses, and no file is at fault.
    Refused(CommandRefusal),
    /// This file can't be read.
    Unread(&'a str, io::Error),
    /// This file can't be written.
    Unwritten(&'a str, io::Error),
    /// A file of that kind is longer than is kept of it.
    TooLong(ListKind),
}

impl<'a> Stop<'a> {
    /// A file that can't be read, unless it is memory that is wanting.
    pub fn reading(file: &'a str, error: io::Error) -> Stop<'a> {
        match error.kind() {
            ErrorKind::OutOfMemory => Stop::Refused(CommandRefusal::NoMemory),
            _ => Stop::Unread(file, error),
        }
    }

    /// A file that can't be written, unless it is memory that is wanting, or nobody reads there any more.
    pub fn writing(file: &'a str, error: io::Error) -> Stop<'a> {
        match error.kind() {
            ErrorKind::OutOfMemory => Stop::Refused(CommandRefusal::NoMemory),
            ErrorKind::BrokenPipe => Stop::Refused(CommandRefusal::Failed(Failure::Closed)),
            _ => Stop::Unwritten(file, error),
        }
    }

    /// What a command refused that read `file`, with the error of the reader.
    pub fn of_reader(refusal: CommandRefusal, file: &'a str, error: Option<io::Error>) -> Stop<'a> {
        match (refusal, error) {
            (CommandRefusal::Failed(Failure::Read), Some(error)) => Stop::reading(file, error),
            _ => Stop::Refused(refusal),
        }
    }

    /// What refused to read a list of that kind from `file`, with the error of the reader.
    pub fn of_list(
        refusal: CommandRefusal,
        kind: ListKind,
        file: &'a str,
        error: Option<io::Error>,
    ) -> Stop<'a> {
        match refusal {
            CommandRefusal::Stopped { .. } => Stop::TooLong(kind),
            _ => Stop::of_reader(refusal, file, error),
        }
    }

    /// What a command refused that wrote to `file`, with the error of the writer. A writer that takes nothing has none.
    pub fn of_writer(refusal: CommandRefusal, file: &'a str, error: Option<io::Error>) -> Stop<'a> {
        match (refusal, error) {
            (CommandRefusal::Failed(Failure::Write), Some(error)) => Stop::writing(file, error),
            (CommandRefusal::Failed(Failure::Write), None) => {
                Stop::writing(file, io::Error::from(ErrorKind::WriteZero))
            }
            _ => Stop::Refused(refusal),
        }
    }

    /// Whether what failed is a write: of the output, or of a file.
    pub fn is_of_writing(self) -> bool {
        match self {
            Stop::Unwritten(_, _) | Stop::Refused(CommandRefusal::Failed(_)) => true,
            _ => false,
        }
    }
}

/// What a command came to that prints, and the error of the standard output, if it had one.
#[derive(Clone, Copy)]
pub struct Printed {
    /// The status, or why the command refused.
    pub done: Result<u8, CommandRefusal>,
    /// Why the standard output failed, if it did.
    pub error: Option<io::Error>,
}

impl Printed {
    /// Why the command stops, if it does.
    pub fn stop(&self) -> Option<Stop<'static>> {
        match self.done {
            Ok(_) => None,
            Err(refusal) => Some(Stop::of_writer(refusal, OUTPUT, self.error)),
        }
    }

    /// The status that the command ends with.
    pub fn ending(&self) -> ExitCode {
        ExitCode::from(exit_status(&self.done))
    }
}

/// Prints a text; the status is the one given, where all of it is out.
pub fn print_bytes<R: Print>(rt: &R, text: &[u8], status: Result<u8, CommandRefusal>) -> Printed {
    let mut output = WithError::new(io::writer(rt));
    let done = match put_all(&mut Tracked::writer(&mut output), text) {
        Ok(()) => status,
        Err(failure) => Err(CommandRefusal::Failed(failure)),
    };
    let error = output.error();
    Printed { done, error }
}

/// Says why there are no words: want of memory, or a word that is no text.
pub fn no_words<R: Eprint>(rt: &R, error: io::Error) -> ExitCode {
    match error.kind() {
        ErrorKind::OutOfMemory => no_memory(rt),
        _ => fault(rt, "a word of the command line", "is not UTF-8"),
    }
}

/// Says that there is no memory.
pub fn no_memory<R: Eprint>(rt: &R) -> ExitCode {
    let _ = eprintln!(rt; "{}", CommandRefusal::NoMemory);
    ExitCode::FAILURE
}

/// A word of the command line as it is told: an empty one has marks around it.
fn shown_name(word: &str) -> &str {
    if word.is_empty() { "''" } else { word }
}

/// Says what is wrong with the words.
pub fn fault<R: Eprint>(rt: &R, what: &str, why: &str) -> ExitCode {
    let what = shown_name(what);
    let _ = eprintln!(rt; "{what} {why}");
    ExitCode::FAILURE
}

/// Tells why a command stops; where nobody reads the output any more, nothing is told.
pub fn tell<R: Eprint + AllocGlobal>(rt: &R, stop: Stop<'_>, known: &Known<'_, '_>) {
    match stop {
        Stop::Refused(CommandRefusal::Failed(Failure::Closed)) => {}
        Stop::Refused(refusal) => {
            let _ = eprintln!(rt; "{refusal}");
            tell_reason(rt, refusal, known);
        }
        Stop::Unread(file, error) => {
            let (refusal, file) = (CommandRefusal::Failed(Failure::Read), shown_name(file));
            let _ = eprintln!(rt; "{refusal}\nreading {file} failed: {error}");
        }
        Stop::Unwritten(file, error) => {
            let (refusal, file) = (CommandRefusal::Failed(Failure::Write), shown_name(file));
            let _ = eprintln!(rt; "{refusal}\nwriting {file} failed: {error}");
        }
        Stop::TooLong(kind) => tell_overlong(rt, kind),
    }
}

/// Tells how long a file of that kind may be.
fn tell_overlong<R: Eprint>(rt: &R, kind: ListKind) {
    let refusal = CommandRefusal::Stopped { code: 41 };
    let (limit, remedy) = match kind {
        ListKind::Plan => (MOST_OF_A_PLAN, "leave out lines of which nothing comes"),
        _ => (
            MOST_OF_SETTLES,
            "leave out settle lines that stand for nothing, and name each worker once",
        ),
    };
    let _ = eprintln!(rt; "{refusal}\nlimit: {limit}\nwhat to do: {remedy}");
}

/// Tells why a command stops of which nothing is known beside, and gives its status.
pub fn stopped<R: Eprint + AllocGlobal>(rt: &R, stop: Stop<'_>) -> ExitCode {
    tell(rt, stop, &Known::nothing());
    ExitCode::FAILURE
}

/// Tells why a file beside the standard output isn't written, and whether that is. `known` is what is known of the replay that it was written from, if any.
pub fn tell_beside<R: Eprint + AllocGlobal>(
    rt: &R,
    stop: Stop<'_>,
    known: &Known<'_, '_>,
    file: &str,
    report: &Result<u8, CommandRefusal>,
) {
    if let Stop::Refused(CommandRefusal::Failed(Failure::Closed)) = stop {
        return;
    }
    tell(rt, stop, known);
    let _ = match report {
        Ok(_) => eprintln!(rt; "{file} is not written; the standard output is"),
        Err(_) => eprintln!(rt; "{file} is not written, and neither is the standard output"),
    };
}

/// Tells what the refusals of a number are, or what a name means, in letters of either case.
pub fn explain<R: Print + Eprint + AllocGlobal>(rt: &R, what: &str) -> ExitCode {
    if let Ok(number) = what.parse::<u8>() {
        return explain_number(rt, number);
    }
    if is_digits(what) {
        return no_refusal(rt, what);
    }
    let written = match (
        refusal_named(what.as_bytes()),
        Ending::named(what.as_bytes()),
    ) {
        (Some(reason), Some(ending)) => match print_reason(rt, reason) {
            Ok(()) => println!(rt; "\n{ending}"),
            Err(error) => Err(error),
        },
        (Some(reason), None) => print_reason(rt, reason),
        (None, Some(ending)) => println!(rt; "{ending}"),
        (None, None) => return unknown_name(rt, what),
    };
    is_out(rt, written)
}

/// Whether it is a number, of any length.
fn is_digits(what: &str) -> bool {
    !what.is_empty() && what.as_bytes().iter().all(|b| b.is_ascii_digit())
}

/// Tells that this number is no refusal's.
fn no_refusal<R: Eprint, N: Display + Drop>(rt: &R, number: N) -> ExitCode {
    let _ = eprintln!(rt; "nothing is refused {number}");
    ExitCode::FAILURE
}

fn explain_number<R: Print + Eprint + AllocGlobal>(rt: &R, number: u8) -> ExitCode {
    let Some(reason) = RefusalCause::of(number) else {
        return no_refusal(rt, number);
    };
    let written = print_reason(rt, reason);
    is_out(rt, written)
}

/// Prints what a refusal is, and of 41 each limit, since files have some too.
fn print_reason<R: Print>(rt: &R, reason: RefusalCause) -> io::Result<()> {
    match reason {
        RefusalCause::TooLong => {
            println!(rt;
                "{reason}\nLimits: 100,000 events, those of settle lines counted; {MOST_OF_A_PLAN}; {MOST_OF_SETTLES}"
            )
        }
        _ => println!(rt; "{reason}"),
    }
}

/// Tells that nothing has this name, and which names are near.
fn unknown_name<R: Eprint>(rt: &R, name: &str) -> ExitCode {
    let near = NearNames(name.as_bytes());
    if near.are_some() {
        let _ = eprintln!(rt; "{name} is the name of no refusal, fault or trap; near are:{near}");
        return ExitCode::FAILURE;
    }
    fault(rt, name, "is the name of no refusal, fault or trap")
}

fn is_out<R: Eprint + AllocGlobal>(rt: &R, written: io::Result<()>) -> ExitCode {
    match written {
        Ok(()) => ExitCode::SUCCESS,
        Err(error) => stopped(rt, Stop::writing(OUTPUT, error)),
    }
}
