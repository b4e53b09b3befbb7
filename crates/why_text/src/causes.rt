// Why an object is as it is, down to the object in which its fault began.

ghost use Rattle.std.specs.Prelude.{◌≡◌, ◌++◌, [], IfOk, OnErr, OnOk, length, string_bytes};
ghost use Rattle.std.specs.Option.{option_map};
ghost use Rattle.event_log.specs.Entries.{main_attempt};
ghost use Rattle.event_log.specs.Words.{faulted_in, faults_of};
ghost use Rattle.report_text.specs.of_report_lines.Main.{first};
ghost use Rattle.why_text.specs.Text.{cause, cause_by, cause_in, cause_text, causes_text, lack_of, main_lack_text, why_text};

use crate::account::write_account;
use crate::ways::next_cause;
use ids::ObjectId;
use log_entries::Entry;
use log_words::{Contents, task_of, write_fault};
use report::or_no_text;
use report_text::main_end::is_main;
use std::alloc::{AllocError, Global};
use values::Fault;

/// The object in which the fault of another began, where the entry says that the other has one.
#[tactic(auto, unfolding(crate::specs::Text::cause_in))]
fn cause_in(object: ObjectId, task: ObjectId, entry: &Entry) -> Option<ObjectId>
    ensures { result ≡ first (cause_in object task entry.now) }
{
    match entry {
        Entry::Resolved {
            object: resolved,
            fault,
        } => {
            if resolved.is(object) {
                return Some(fault.object);
            }
            None
        }
        Entry::Faulted {
            attempt,
            object: got,
            fault,
        } => {
            if attempt.object.is(task) {
                return Some(fault.object);
            }
            if got.is(object) {
                return Some(fault.object);
            }
            None
        }
        _ => None,
    }
}

fn cause_by(log: &[Entry], object: ObjectId, task: ObjectId) -> Option<ObjectId>
    ensures { result ≡ cause_by log.now object task }
{
    for entry in log {
        if let Some(found) = cause_in(object, task, entry) {
            return Some(found);
        }
    }
    None
}

/// The object in which its fault began, if it has one.
fn cause(log: &[Entry], object: ObjectId) -> Option<ObjectId>
    ensures { result ≡ cause log.now object }
{
    cause_by(log, object, task_of(log, object))
}

fn write_cause(
    alloc: Global,
    text: &mut String,
    contents: Contents,
    log: &[Entry],
    lines: &[usize],
    object: ObjectId,
    cause: Option<ObjectId>,
) -> Result<(), AllocError>
    ensures { OnOk result (string_bytes text.new
        ≡ string_bytes text.old ++ cause_text contents log.now lines.now object cause) }
{
    let Some(cause) = cause else {
        return Ok(());
    };
    if cause.is(object) {
        return Ok(());
    }
    text.push_str("\n")?;
    write_account(alloc, text, contents, log, lines, cause)
}

#[tactic(auto, unfolding(crate::specs::Text::why_text))]
fn write_why(
    alloc: Global,
    text: &mut String,
    contents: Contents,
    log: &[Entry],
    lines: &[usize],
    object: ObjectId,
) -> Result<(), AllocError>
    ensures { OnOk result (string_bytes text.new ≡ string_bytes text.old ++ why_text contents log.now lines.now object) }
{
    write_account(alloc, text, contents, log, lines, object)?;
    write_cause(
        alloc,
        text,
        contents,
        log,
        lines,
        object,
        cause(log, object),
    )
}

/// Why an object is as it is, in sentences, in the order of the log: what made it and what was made with it, the attempts of its task and
/// what they got, why later ones were begun, the deaths that broke them, the losses of its copies, who got it, and how it was given up or
/// released, each with its event and the event's line. Of an accepted result that is small it says that the owner keeps it, and of a release
/// that what had the object went with its owner, and when. Where it has a fault that began in another object, the same of that one follows,
/// behind an empty line. `lines` are the lines of the event file from which the events came, in their order; an event behind the last has no
/// line.
///
/// It is made of any log, a legal one or not. An object that was never born has one sentence, that there is none.
pub fn why_text(
    alloc: Global,
    contents: Contents,
    log: &[Entry],
    lines: &[usize],
    object: ObjectId,
) -> Result<String, AllocError>
    ensures { IfOk result (λ text. string_bytes text ≡ why_text contents log.now lines.now object) }
{
    let mut text = String::new(alloc);
    write_why(alloc, &mut text, contents, log, lines, object)?;
    Ok(text)
}

/// A fault in place of an answer, and the object that was to be got.
#[derive(Clone, Copy)]
pub struct Lack {
    /// The object that was to be got.
    pub object: ObjectId,
    /// What came in place of its content.
    pub fault: Fault,
}

/// The fault that a get of main is answered with at an entry.
fn lack_in(entry: &Entry) -> Option<Lack>
    ensures { option_map lack_of result ≡ first (faulted_in main_attempt entry.now) }
{
    let Entry::Faulted {
        attempt,
        object,
        fault,
    } = entry
    else {
        return None;
    };
    if is_main(*attempt) {
        return Some(Lack {
            object: *object,
            fault: *fault,
        });
    }
    None
}

/// The fault that a get of main was answered with first.
pub fn main_lack(log: &[Entry]) -> Option<Lack>
    ensures { option_map lack_of result ≡ first (faults_of main_attempt log.now) }
{
    for entry in log {
        if let Some(lack) = lack_in(entry) {
            return Some(lack);
        }
    }
    None
}

/// Writes the accounts of the object and of each one on the way to the cause, so many at most.
fn write_causes(
    alloc: Global,
    text: &mut String,
    contents: Contents,
    log: &[Entry],
    lines: &[usize],
    cause: ObjectId,
    most: usize,
    first: ObjectId,
) -> Result<(), AllocError>
    ensures { OnOk result
        (string_bytes text.new ≡ string_bytes text.old ++ causes_text contents log.now lines.now cause most first) }
{
    let mut object = first;
    let mut left = most;
    while left > 0 {
        write_account(alloc, text, contents, log, lines, object)?;
        if object.is(cause) {
            return Ok(());
        }
        text.push_str("\n")?;
        let next = next_cause(alloc, log, cause, object)?;
        object = next;
        left -= 1;
    }
    Ok(())
}

/// Writes the accounts of the object and of each one on the way to that in which the fault began.
fn write_way(
    alloc: Global,
    text: &mut String,
    contents: Contents,
    log: &[Entry],
    lines: &[usize],
    fault: Fault,
    object: ObjectId,
) -> Result<(), AllocError>
    ensures { OnOk result (string_bytes text.new
        ≡ string_bytes text.old ++ causes_text contents log.now lines.now fault.object (length log.now) object) }
{
    write_causes(
        alloc,
        text,
        contents,
        log,
        lines,
        fault.object,
        log.len(),
        object,
    )
}

fn add_main_lack(
    alloc: Global,
    text: &mut String,
    contents: Contents,
    log: &[Entry],
    lines: &[usize],
    lack: Lack,
) -> Result<(), AllocError>
    ensures { OnOk result (string_bytes text.new ≡ string_bytes text.old ++ main_lack_text contents log.now lines.now (lack_of lack)) }
{
    text.push_str("Main ended with a fault: ")?;
    write_fault(text, lack.fault)?;
    text.push_str(".\n\n")?;
    write_way(alloc, text, contents, log, lines, lack.fault, lack.object)?;
    Ok(())
}

/// Writes why main ended with the fault: why the object that it was to get is as it is, and each one on the way from there to the first cause. An
/// error is want of memory, and then nothing is left of the text.
pub fn write_main_lack(
    alloc: Global,
    text: &mut String,
    contents: Contents,
    log: &[Entry],
    lines: &[usize],
    lack: Lack,
) -> Result<(), AllocError>
    ensures done { OnOk result (string_bytes text.new ≡ string_bytes text.old ++ main_lack_text contents log.now lines.now (lack_of lack)) }
    ensures err { OnErr result (string_bytes text.new ≡ []) }
{
    or_no_text(add_main_lack(alloc, text, contents, log, lines, lack), text)
}
