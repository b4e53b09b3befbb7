// Commands over a script and an event file.

use crate::heads::tell_misfits;
use crate::inputs::{ReadEvents, read_events, read_plain_events, read_script_file, shown_bytes};
use crate::limits::print_so_far;
use crate::pages::is_page_written;
use crate::reasons::{Course, Known, List};
use crate::told::{NO_NAME, Printed, Stop, fault, tell, tell_beside};
use crate::traps::with_trap_of_replay;
use crate::views::{memory_of, write_done};
use raysim_calls::{ReplayCall, View, Views};
use raysim_commands::{Cluster, CommandRefusal, Form, RunMemory, Tracked, migrate, sim, state};
use raysim_files::WithError;
use refusal_reasons::ListKind;
use std::io;
use std::io::ErrorKind;
use std::process::ExitCode;
use std::rt::Files;

/// What is known of a replay that stops, where the list is of that kind.
fn known_of<'a, 'b>(
    replayed: &ReplayCall<'a>,
    kind: ListKind,
    text: &'b [u8],
    events: &'b [u8],
) -> Known<'a, 'b> {
    let list = List {
        kind,
        file: replayed.events,
        text: events,
    };
    Known {
        explain: replayed.explain,
        script: replayed.script,
        text,
        list: Some(list),
        course: Some(Course::Replayed(replayed.cluster)),
    }
}

/// Tells where the list says that it was recorded of another run.
fn tell_misfits_of<R: Eprint + AllocGlobal>(rt: &R, replayed: &ReplayCall<'_>, texts: &Texts) {
    let (front, text) = (texts.front.as_slice(), texts.script.as_slice());
    let (script, events) = (replayed.script, replayed.events);
    tell_misfits(rt, events, front, replayed.cluster, script, text);
}

/// What the word may be that is read as an event file.
#[derive(Clone, Copy, Debug, PartialEq, Eq)]
enum Word {
    /// A file alone.
    File,
    /// A file, or else the name of an object, a worker or a node.
    FileOrName,
}

impl Word {
    /// What it may be where that is told of the replay: of one word behind the script `why` asks first whether it is a name.
    fn of(form: Form) -> Word {
        match form {
            Form::WhyMain(_) => Word::FileOrName,
            _ => Word::File,
        }
    }
}

/// What was read of both files, and how the list's begins.
#[derive(Drop)]
pub struct Texts {
    /// The script's text.
    pub script: Vec<u8>,
    /// The event file as a text, as far as a replay may go.
    pub events: Vec<u8>,
    /// How the list's file begins.
    pub front: Vec<u8>,
}

/// Replays an event file and writes what is asked for, and other views behind it, also where that could not be written; why it stops, where it
/// does, is told.
pub fn over_events<R: Files + Print + Eprint + AllocGlobal>(
    rt: &R,
    replayed: &ReplayCall<'_>,
    form: Form,
    views: &Views<'_>,
) -> ExitCode {
    let Some(texts) = read_texts(rt, replayed, ListKind::Events, Word::of(form)) else {
        return ExitCode::FAILURE;
    };
    let ending = print_all(rt, replayed, &texts, &form, views);
    tell_misfits_of(rt, replayed, &texts);
    ending
}

/// Replays what was read, and writes what is asked for.
fn print_all<R: Files + Print + Eprint + AllocGlobal>(
    rt: &R,
    replayed: &ReplayCall<'_>,
    texts: &Texts,
    form: &Form,
    views: &Views<'_>,
) -> ExitCode {
    let (script, listed) = (texts.script.as_slice(), texts.events.as_slice());
    let printed = print_replay(rt, replayed.cluster, texts, form, views);
    let printed = with_trap_of_replay(rt, printed, script, listed, replayed.cluster, *form);
    if let Some(stop) = printed.stop() {
        let known = known_of(replayed, ListKind::Events, script, listed);
        tell(rt, stop, &known);
        print_so_far(rt, &printed.done, &known, *form, views);
        if !stop.is_of_writing() {
            return printed.ending();
        }
    }
    if are_written(rt, replayed, texts, views, &printed.done) {
        return printed.ending();
    }
    ExitCode::FAILURE
}

/// Replays an event file of format 1 and writes it as one of format 2; why it stops, where it does, is told.
pub fn migrate_events<R: Files + Print + Eprint + AllocGlobal>(
    rt: &R,
    replayed: &ReplayCall<'_>,
) -> ExitCode {
    let Some(texts) = read_texts(rt, replayed, ListKind::FirstFormat, Word::File) else {
        return ExitCode::FAILURE;
    };
    let printed = print_migrated(rt, replayed.cluster, &texts);
    if let Some(stop) = printed.stop() {
        let (text, events) = (texts.script.as_slice(), texts.events.as_slice());
        tell(
            rt,
            stop,
            &known_of(replayed, ListKind::FirstFormat, text, events),
        );
    }
    printed.ending()
}

/// Replays an event file and tells what is alive behind the event of that number; why it stops, where it does, is told.
pub fn state_at<R: Files + Print + Eprint + AllocGlobal>(
    rt: &R,
    replayed: &ReplayCall<'_>,
    at: usize,
) -> ExitCode {
    let Some(texts) = read_texts(rt, replayed, ListKind::Events, Word::File) else {
        return ExitCode::FAILURE;
    };
    let printed = print_state(rt, replayed.cluster, &texts, at);
    if let Some(stop) = printed.stop() {
        let (text, events) = (texts.script.as_slice(), texts.events.as_slice());
        tell(
            rt,
            stop,
            &known_of(replayed, ListKind::Events, text, events),
        );
    }
    tell_misfits_of(rt, replayed, &texts);
    printed.ending()
}

/// Replays, and prints what is asked for.
fn print_replay<R: Print + AllocGlobal>(
    rt: &R,
    cluster: Cluster,
    texts: &Texts,
    form: &Form,
    views: &Views<'_>,
) -> Printed {
    let mut output = WithError::new(io::writer(rt));
    let done = sim(
        rt.alloc(),
        &mut Tracked::reader(texts.script.as_slice()),
        &mut Tracked::reader(texts.events.as_slice()),
        cluster,
        *form,
        memory_of(form, views),
        &mut Tracked::writer(&mut output),
    );
    let error = output.error();
    Printed { done, error }
}

/// Replays, and prints the events in format 2.
fn print_migrated<R: Print + AllocGlobal>(rt: &R, cluster: Cluster, texts: &Texts) -> Printed {
    let mut output = WithError::new(io::writer(rt));
    let done = migrate(
        rt.alloc(),
        &mut Tracked::reader(texts.script.as_slice()),
        &mut Tracked::reader(texts.events.as_slice()),
        cluster,
        &mut Tracked::writer(&mut output),
    );
    let error = output.error();
    Printed { done, error }
}

/// Replays, and prints what is alive behind the event of that number.
fn print_state<R: Print + AllocGlobal>(
    rt: &R,
    cluster: Cluster,
    texts: &Texts,
    at: usize,
) -> Printed {
    let mut output = WithError::new(io::writer(rt));
    let done = state(
        rt.alloc(),
        &mut Tracked::reader(texts.script.as_slice()),
        &mut Tracked::reader(texts.events.as_slice()),
        cluster,
        at,
        &mut Tracked::writer(&mut output),
    );
    let error = output.error();
    Printed { done, error }
}

/// Reads an event file of format 1, which says of no run.
fn read_first_format<'a, R: Files + AllocGlobal>(
    rt: &R,
    script: &[u8],
    path: &'a str,
) -> Result<ReadEvents, Stop<'a>> {
    let events = read_plain_events(rt, script, path)?;
    let front = Vec::new(rt.alloc());
    Ok(ReadEvents { events, front })
}

/// Tells that a word is no name either, where there is no such file.
fn tell_no_name<R: Eprint>(rt: &R, stop: Stop<'_>, word: Word) {
    match stop {
        Stop::Unread(file, error)
            if word == Word::FileOrName && error.kind() == ErrorKind::NotFound => {
            fault(rt, file, NO_NAME);
        }
        _ => {}
    }
}

/// Reads both files, or tells why they can't be read.
fn read_texts<R: Files + Eprint + AllocGlobal>(
    rt: &R,
    replayed: &ReplayCall<'_>,
    kind: ListKind,
    word: Word,
) -> Option<Texts> {
    let script = match read_script_file(rt, replayed.script) {
        Ok(script) => script,
        Err(stop) => {
            tell(rt, stop, &known_of(replayed, kind, b"", b""));
            return None;
        }
    };
    let events = match kind {
        ListKind::FirstFormat => read_first_format(rt, script.as_slice(), replayed.events),
        _ => read_events(rt, script.as_slice(), replayed.events),
    };
    match events {
        Ok(ReadEvents { events, front }) => Some(Texts {
            script,
            events,
            front,
        }),
        Err(stop) => {
            let shown = shown_bytes(rt, Some(replayed.events), replayed.explain);
            tell(
                rt,
                stop,
                &known_of(replayed, kind, script.as_slice(), shown.as_slice()),
            );
            tell_no_name(rt, stop, word);
            None
        }
    }
}

/// Writes the other views of a replay, and says whether all are out.
pub fn are_written<R: Files + Eprint + AllocGlobal>(
    rt: &R,
    replayed: &ReplayCall<'_>,
    texts: &Texts,
    views: &Views<'_>,
    report: &Result<u8, CommandRefusal>,
) -> bool {
    let timeline = is_written(rt, replayed, texts, &views.timeline(), report);
    let lineage = is_written(rt, replayed, texts, &views.lineage(), report);
    let (script, events) = (texts.script.as_slice(), texts.events.as_slice());
    let page = is_page_written(rt, script, events, replayed.cluster, views, report);
    timeline && lineage && page
}

/// Does the replay once more, and writes a view of it, if one is asked for; says whether it is out.
fn is_written<R: Files + Eprint + AllocGlobal>(
    rt: &R,
    replayed: &ReplayCall<'_>,
    texts: &Texts,
    view: &Option<View<'_>>,
    report: &Result<u8, CommandRefusal>,
) -> bool {
    let Some(view) = view else {
        return true;
    };
    let mut shown = Vec::new(rt.alloc());
    let done = sim(
        rt.alloc(),
        &mut Tracked::reader(texts.script.as_slice()),
        &mut Tracked::reader(texts.events.as_slice()),
        replayed.cluster,
        view.form,
        RunMemory::GivenBack,
        &mut Tracked::writer(&mut shown),
    );
    match write_done(rt, view.path, done, shown.as_slice()) {
        Ok(()) => true,
        Err(stop) => {
            let (script, events) = (texts.script.as_slice(), texts.events.as_slice());
            let known = Known::of_replay(script, events, replayed.cluster);
            tell_beside(rt, stop, &known, view.path, report);
            false
        }
    }
}
