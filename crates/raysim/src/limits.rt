// Runs that are stopped by a limit.

use crate::reasons::{Course, Known};
use crate::told::{Printed, print_bytes, stopped};
use raysim_calls::Views;
use raysim_commands::{CommandRefusal, Form, SoFar, run_so_far, sim_so_far};

/// The limits that a run may meet, where it isn't known which one it met.
const POSSIBLE: &str =
    "1,024 workers in all, 1,000,000 objects, or 64 nodes: the next event would have passed one of them";

/// The events of a run that goes on to its end by itself.
pub const SETTLED: &[u8] = b"settle\n";

const FEWER_OF_EACH: &str =
    "for workers get some results before the next tasks are begun, or give each more to do; for objects put fewer values; for nodes let fewer join";

const LEAVE_OUT: &str = "leave out lines of which nothing comes, or ";

const FEWER_EVENTS: &str = "give each task more to do: each takes some ten events";

/// Tells which limit a run met, in which event, and what to do.
pub fn tell_limit<R: Eprint + AllocGlobal>(rt: &R, code: u16, known: &Known<'_, '_>) {
    match (code, known.course) {
        (37, Some(Course::Driven(_))) => tell_met(rt, known),
        (37, Some(_)) => tell_possible(rt),
        (41, Some(_)) => tell_too_long(rt, known),
        _ => {}
    }
}

/// The run up to where it stops, in that form, if it can be driven or replayed once more.
fn so_far<R: AllocGlobal>(
    rt: &R,
    known: &Known<'_, '_>,
    form: Form,
) -> Option<Result<SoFar, CommandRefusal>> {
    match known.course? {
        Course::Driven(cluster) => Some(run_so_far(rt.alloc(), known.text, cluster, form)),
        Course::Replayed(cluster) => {
            let events: &[u8] = match known.list {
                Some(list) => list.text,
                None => SETTLED,
            };
            Some(sim_so_far(rt.alloc(), known.text, events, cluster, form))
        }
        Course::OnThreads => None,
    }
}

/// Tells which limit the last event would have passed, or which event was the last; says whether that could be told.
fn tell_place<R: Eprint + AllocGlobal>(rt: &R, known: &Known<'_, '_>) -> bool {
    match so_far(rt, known, Form::Limit) {
        Some(Ok(met)) => {
            write_place(rt, met.text.as_str(), known.has_lines());
            true
        }
        _ => false,
    }
}

/// What stands before and behind the line of an event in a text.
fn around_line(text: &str) -> Option<(&str, &str)> {
    let (before, rest) = text.split_once(", line ")?;
    let (_, behind) = rest.split_once(')')?;
    Some((before, behind))
}

/// Writes the text of a limit or of a last event, without the event's line where the events are those of no file.
fn write_place<R: Eprint>(rt: &R, text: &str, has_lines: bool) {
    let _ = match around_line(text) {
        Some((before, behind)) if !has_lines => eprint!(rt; "{before}){behind}"),
        _ => eprint!(rt; "{text}"),
    };
}

fn tell_met<R: Eprint + AllocGlobal>(rt: &R, known: &Known<'_, '_>) {
    if !tell_place(rt, known) {
        tell_possible(rt);
    }
}

/// Tells which limits there are.
fn tell_possible<R: Eprint>(rt: &R) {
    let _ = eprintln!(rt; "limit: {POSSIBLE}\nwhat to do: {FEWER_OF_EACH}");
}

/// Writes which event of too many was the last, and says whether that tells what to do, too: it does where the last one met another limit, as a join
/// that stands again and again.
fn write_last<R: Eprint>(rt: &R, text: &str, has_lines: bool) -> bool {
    match text.split_once("limit: ") {
        Some((before, limit)) if before.is_empty() => {
            let _ = eprint!(rt; "the last event met another limit, ");
            write_place(rt, limit, has_lines);
            true
        }
        _ => {
            write_place(rt, text, has_lines);
            false
        }
    }
}

/// Tells that there were too many events, which was the last, and what to do.
fn tell_too_long<R: Eprint + AllocGlobal>(rt: &R, known: &Known<'_, '_>) {
    let _ = eprintln!(rt; "limit: 100,000 events, those of settle lines counted");
    let is_told = match so_far(rt, known, Form::Limit) {
        Some(Ok(met)) => write_last(rt, met.text.as_str(), known.has_lines()),
        _ => false,
    };
    if is_told {
        return;
    }
    let before = if known.has_lines() { LEAVE_OUT } else { "" };
    let _ = eprintln!(rt; "what to do: {before}{FEWER_EVENTS}");
}

/// Prints the report of a run that was stopped, up to there, where that is asked for and the refusal says that a limit stopped it, and tells before
/// that no other view is written.
pub fn print_so_far<R: Print + Eprint + AllocGlobal>(
    rt: &R,
    done: &Result<u8, CommandRefusal>,
    known: &Known<'_, '_>,
    form: Form,
    views: &Views<'_>,
) {
    if !views.so_far {
        return;
    }
    let Err(CommandRefusal::Stopped { .. }) = done else {
        return;
    };
    tell_unwritten(rt, views.timeline);
    tell_unwritten(rt, views.lineage);
    tell_unwritten(rt, views.page);
    let Some(found) = so_far(rt, known, form) else {
        return;
    };
    let printed = print_found(rt, found);
    if let Some(stop) = printed.stop() {
        stopped(rt, stop);
    }
}

/// Tells that a view of a run that was stopped isn't written, if it was asked for.
fn tell_unwritten<R: Eprint>(rt: &R, file: Option<&str>) {
    if let Some(file) = file {
        let _ = eprintln!(rt; "{file} is not written, since the run was stopped");
    }
}

fn print_found<R: Print>(rt: &R, found: Result<SoFar, CommandRefusal>) -> Printed {
    let so_far = match found {
        Ok(so_far) => so_far,
        Err(refusal) => {
            return Printed {
                done: Err(refusal),
                error: None,
            };
        }
    };
    print_bytes(rt, so_far.text.as_bytes(), Ok(so_far.status))
}
