// How the program reads scripts, lists of events and plans from their files.

use crate::heads::Fronted;
use crate::told::Stop;
use kept_lists::{read_event_list, read_first_format, read_plan_list};
use raysim_commands::{Tracked, check, read_at_most, read_script};
use raysim_files::WithError;
use refusal_reasons::ListKind;
use std::fs;
use std::rt::Files;

/// How many bytes of a file are read once more, to show a line of it.
pub const MOST_SHOWN: usize = 1_000_000;

/// Reads a script, up to its bound.
pub fn read_script_file<'a, R: Files + AllocGlobal>(
    rt: &R,
    path: &'a str,
) -> Result<Vec<u8>, Stop<'a>> {
    let mut file = match fs::open(rt, path) {
        Ok(file) => WithError::new(file),
        Err(error) => return Err(Stop::reading(path, error)),
    };
    match read_script(rt.alloc(), &mut Tracked::reader(&mut file)) {
        Ok(text) => Ok(text),
        Err(refusal) => Err(Stop::of_reader(refusal, path, file.error())),
    }
}

/// An event file as a text of the same lines, and how its file begins.
#[derive(Drop)]
pub struct ReadEvents {
    /// A text of the list's lines, as far as a replay may go.
    pub events: Vec<u8>,
    /// The first bytes of the file, which tell of which run it is.
    pub front: Vec<u8>,
}

/// Reads an event file of either format, as far as a replay may go, and gives it as a text of the same lines. Where it can't be read, or is
/// refused, the script's refusal counts, if it has one.
pub fn read_events<'a, R: Files + AllocGlobal>(
    rt: &R,
    script: &[u8],
    path: &'a str,
) -> Result<ReadEvents, Stop<'a>> {
    let mut file = open(rt, script, path)?;
    let mut fronted = Fronted::new(rt.alloc(), &mut file);
    let read = read_event_list(rt.alloc(), &mut Tracked::reader(&mut fronted));
    let front = fronted.into_front();
    match read {
        Ok(events) => Ok(ReadEvents { events, front }),
        Err(refusal) => {
            let stop = Stop::of_list(refusal, ListKind::Events, path, file.error());
            Err(behind(rt, script, stop))
        }
    }
}

/// Reads an event file of format 1 alike.
pub fn read_plain_events<'a, R: Files + AllocGlobal>(
    rt: &R,
    script: &[u8],
    path: &'a str,
) -> Result<Vec<u8>, Stop<'a>> {
    let mut file = open(rt, script, path)?;
    match read_first_format(rt.alloc(), &mut Tracked::reader(&mut file)) {
        Ok(events) => Ok(events),
        Err(refusal) => {
            let stop = Stop::of_list(refusal, ListKind::FirstFormat, path, file.error());
            Err(behind(rt, script, stop))
        }
    }
}

/// Reads a plan likewise, and gives it as a text of the lines that say something.
pub fn read_plan<'a, R: Files + AllocGlobal>(
    rt: &R,
    script: &[u8],
    path: &'a str,
) -> Result<Vec<u8>, Stop<'a>> {
    let mut file = open(rt, script, path)?;
    match read_plan_list(rt.alloc(), &mut Tracked::reader(&mut file)) {
        Ok(plan) => Ok(plan),
        Err(refusal) => {
            let stop = Stop::of_list(refusal, ListKind::Plan, path, file.error());
            Err(behind(rt, script, stop))
        }
    }
}

/// What is shown of a file that was refused, if that is asked for and there is one.
pub fn shown_bytes<R: Files + AllocGlobal>(rt: &R, path: Option<&str>, explain: bool) -> Vec<u8> {
    match path {
        Some(path) if explain => first_bytes(rt, path),
        _ => Vec::new(rt.alloc()),
    }
}

/// The first bytes of a file that was refused, to show the line at fault: none where it is no file that can be read once more.
fn first_bytes<R: Files + AllocGlobal>(rt: &R, path: &str) -> Vec<u8> {
    match fs::metadata(rt, path) {
        Ok(found) if found.is_file() => {}
        _ => return Vec::new(rt.alloc()),
    }
    let Ok(mut file) = fs::open(rt, path) else {
        return Vec::new(rt.alloc());
    };
    match read_at_most(rt.alloc(), &mut Tracked::reader(&mut file), MOST_SHOWN) {
        Ok(bytes) => bytes,
        Err(_) => Vec::new(rt.alloc()),
    }
}

/// Opens a file beside a script.
fn open<'a, R: Files + AllocGlobal>(
    rt: &R,
    script: &[u8],
    path: &'a str,
) -> Result<WithError<R::File>, Stop<'a>> {
    match fs::open(rt, path) {
        Ok(file) => Ok(WithError::new(file)),
        Err(error) => Err(behind(rt, script, Stop::reading(path, error))),
    }
}

/// Why a command stops that reads a script before: the script's refusal, if it has one.
fn behind<'a, R: AllocGlobal>(rt: &R, script: &[u8], stop: Stop<'a>) -> Stop<'a> {
    let mut unseen = Vec::new(rt.alloc());
    let mut writer = Tracked::writer(&mut unseen);
    match check(rt.alloc(), &mut Tracked::reader(script), &mut writer) {
        Ok(_) => stop,
        Err(refusal) => Stop::Refused(refusal),
    }
}
