// What is told below a refusal's first line.

use crate::inputs::MOST_SHOWN;
use crate::limits::tell_limit;
use raysim_commands::{Cluster, CommandRefusal};
use raysim_explain::{Excerpt, RefusalCause};
use refusal_reasons::{Letters, LineReason, ListKind, Refused, refused_line, script_reason};

/// Why a line isn't shown.
const NOT_AGAIN: &str = "it is not shown, since the file can't be read a second time";

const TOO_FAR: &str = "it is not shown, since it does not end in the file's first 1,000,000 bytes";

/// How the events of a run come.
#[derive(Clone, Copy, Debug, PartialEq, Eq)]
pub enum Course {
    /// The run is driven on this cluster, turn by turn.
    Driven(Cluster),
    /// Threads take turns.
    OnThreads,
    /// They are those of a list, on this cluster; with no list the run is settled.
    Replayed(Cluster),
}

/// An event file or a plan: its file and what it holds.
#[derive(Clone, Copy)]
pub struct List<'a, 'b> {
    pub kind: ListKind,
    /// The file's name, as it is told; empty where the events are of no file.
    pub file: &'a str,
    /// The file's bytes, as far as they were read.
    pub text: &'b [u8],
}

/// What is known where a command stops: the script's file and its text, the list beside it, how the events come, and whether a refusal's place is asked
/// for.
#[derive(Clone, Copy)]
pub struct Known<'a, 'b> {
    /// Whether a refusal's place is asked for.
    pub explain: bool,
    /// The script's file.
    pub script: &'a str,
    /// The script's text, empty where it wasn't read.
    pub text: &'b [u8],
    /// The event file or the plan, if there is one.
    pub list: Option<List<'a, 'b>>,
    /// How the events come, where a run was begun.
    pub course: Option<Course>,
}

impl Known<'_, '_> {
    /// Nothing is known, nor asked for.
    pub fn nothing() -> Known<'static, 'static> {
        Known {
            explain: false,
            script: "",
            text: b"",
            list: None,
            course: None,
        }
    }

    /// What is known of a replay of these events, which stand in no file, on this cluster; nothing is asked for.
    pub fn of_replay<'b>(
        script: &'b [u8],
        events: &'b [u8],
        cluster: Cluster,
    ) -> Known<'static, 'b> {
        let list = List {
            kind: ListKind::Events,
            file: "",
            text: events,
        };
        Known {
            explain: false,
            script: "",
            text: script,
            list: Some(list),
            course: Some(Course::Replayed(cluster)),
        }
    }

    /// Whether the events are those of a file, so that its lines may be named.
    pub fn has_lines(&self) -> bool {
        match self.list {
            Some(list) => !list.file.is_empty(),
            None => false,
        }
    }
}

/// Tells what there is to tell below the first line of a refusal.
pub fn tell_reason<R: Eprint + AllocGlobal>(
    rt: &R,
    refusal: CommandRefusal,
    known: &Known<'_, '_>,
) {
    match refusal {
        CommandRefusal::Stopped { code } => tell_limit(rt, code, known),
        CommandRefusal::At { code, span } if known.explain => {
            let excerpt = Excerpt {
                file: known.script,
                code,
                text: known.text,
                start: span.start,
                end: span.end,
            };
            let _ = eprintln!(rt; "{excerpt}");
            tell_words(rt, code);
            tell_of_script(rt, code, span.start, span.end, known.text);
        }
        CommandRefusal::BadLine { line } if known.explain => {
            if let Some(list) = known.list {
                tell_line(rt, 40, line, &list);
            }
        }
        CommandRefusal::WrongJob { line } if known.explain => {
            if let Some(list) = known.list {
                tell_line(rt, 42, line, &list);
            }
        }
        _ => {}
    }
}

/// Tells the name of a refusal, and what was wrong.
fn tell_words<R: Eprint>(rt: &R, code: u16) {
    let Ok(number) = u8::try_from(code) else {
        return;
    };
    if let Some(reason) = RefusalCause::of(number) {
        let (name, cause) = (reason.name(), reason.cause());
        let _ = eprintln!(rt; "    {name}: {cause}");
    }
}

/// Tells what was expected in a script, and what was found.
fn tell_of_script<R: Eprint + AllocGlobal>(
    rt: &R,
    code: u16,
    start: usize,
    end: usize,
    text: &[u8],
) {
    if let Some(told) = script_reason(rt.alloc(), text, code, start, end) {
        let told = told.as_str();
        let _ = eprintln!(rt; "{told}");
    }
}

/// The line of that number, if what was read once more of the file has it to its end; else why it isn't shown.
fn whole_line<'b>(list: &List<'_, 'b>, number: u64) -> Result<Refused<'b>, &'static str> {
    if list.text.is_empty() {
        return Err(NOT_AGAIN);
    }
    let is_cut = list.text.len() >= MOST_SHOWN;
    match refused_line(list.kind, list.text, number) {
        Some(refused) => match refused.reason {
            Some(LineReason::NoLineFeed) if is_cut => Err(TOO_FAR),
            _ => Ok(refused),
        },
        None if is_cut => Err(TOO_FAR),
        None => Err(NOT_AGAIN),
    }
}

/// Tells which line of which file is refused, and why, where the line is known.
fn tell_line<R: Eprint>(rt: &R, code: u16, number: u64, list: &List<'_, '_>) {
    let file = list.file;
    let kind = match list.kind {
        ListKind::Plan => "the plan",
        _ => "the event file",
    };
    let _ = eprintln!(rt; "{kind} {file}, line {number}:");
    let Refused { line, reason } = match whole_line(list, number) {
        Ok(refused) => refused,
        Err(why) => {
            let _ = eprintln!(rt; "    {why}");
            tell_words(rt, code);
            return;
        }
    };
    let shown = Letters(line);
    let _ = eprintln!(rt; "    {shown}");
    tell_words(rt, code);
    match reason {
        Some(reason) if code == 40 => {
            let _ = eprintln!(rt; "    why: {reason}");
        }
        _ => {}
    }
}
