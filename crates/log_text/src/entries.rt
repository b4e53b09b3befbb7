// What an entry says in words: of an attempt, of an object, or of what came of an event.

ghost use Rattle.std.specs.Prelude.{◌≡◌, ◌+◌, ◌++◌, ◌<◌, ◌^◌, [], OnErr, OnOk, string_bytes};
ghost use Rattle.log_words.specs.of_event_log.Words.{births};
ghost use Rattle.values.specs.Values.{value_of};
ghost use Rattle.log_words.specs.Index.{IsIndexOf};
ghost use Rattle.log_text.specs.Entries.{act_text, entry_text, indent, lack_head, lack_text, line, print_text};
ghost use Rattle.log_text.specs.Entries.{resolve_head, resolve_text};
ghost use Rattle.log_words.specs.Told.{told_of};

use crate::attempts::{write_begun, write_named};
use crate::events::write_event;
use crate::refusals::write_refusal;
use ids::ObjectId;
use log_entries::Entry;
use log_words::{
    BirthIndex, Contents, Told, write_birth, write_content, write_contents, write_fault,
    write_objects, write_value,
};
use report::or_no_text;
use std::alloc::AllocError;
use values::{Fault, RunValue};

fn write_lack_head(text: &mut String, object: ObjectId) -> Result<(), AllocError>
    ensures { OnOk result (string_bytes text.new ≡ string_bytes text.old ++ lack_head object) }
{
    write!(text, " ends with a fault at get {object}: ")
}

/// Writes how a get was answered with a fault.
fn write_lack(text: &mut String, object: ObjectId, fault: Fault) -> Result<(), AllocError>
    ensures { OnOk result (string_bytes text.new ≡ string_bytes text.old ++ lack_text object fault) }
{
    write_lack_head(text, object)?;
    write_fault(text, fault)
}

fn write_resolve_head(text: &mut String, object: ObjectId) -> Result<(), AllocError>
    ensures { OnOk result (string_bytes text.new ≡ string_bytes text.old ++ resolve_head object) }
{
    let owner = object.owner;
    write!(text, "{owner} gives up {object}: ")
}

/// Writes that an object will have no content.
fn write_resolve(text: &mut String, object: ObjectId, fault: Fault) -> Result<(), AllocError>
    ensures { OnOk result (string_bytes text.new ≡ string_bytes text.old ++ resolve_text object fault) }
{
    write_resolve_head(text, object)?;
    write_fault(text, fault)
}

fn write_print(text: &mut String, contents: Contents, value: &RunValue) -> Result<(), AllocError>
    ensures { OnOk result (string_bytes text.new ≡ string_bytes text.old ++ print_text contents (value_of value.now)) }
{
    text.push_str("main prints ")?;
    write_value(text, contents, value)
}

/// Writes what an entry says of an attempt: what it makes, gets, or ends with.
fn write_act(
    text: &mut String,
    contents: Contents,
    index: &BirthIndex,
    log: &[Entry],
    entry: &Entry,
) -> Result<(), AllocError>
    ensures { IsIndexOf index.now log.now → OnOk result
        (string_bytes text.new ≡ string_bytes text.old ++ act_text contents (births log.now) entry.now) }
{
    match entry {
        Entry::Begun { attempt, worker } => write_begun(
            text, contents, index, log, *attempt, *worker,
        ),
        Entry::Born {
            object,
            attempt,
            birth,
        } => {
            write_named(text, index, log, *attempt)?;
            text.push_str(" makes ")?;
            write_objects(text, *object, &birth.inner)?;
            text.push_str(": ")?;
            write_birth(text, contents, &birth.inner)
        }
        Entry::Got {
            attempt,
            object,
            content,
        } => {
            write_named(text, index, log, *attempt)?;
            write!(text, " gets {object}: ")?;
            write_content(text, contents, &content.inner)
        }
        Entry::Ended {
            attempt,
            contents: results,
        } => {
            write_named(text, index, log, *attempt)?;
            text.push_str(" ends with ")?;
            write_contents(text, contents, results)
        }
        Entry::Accepted(attempt) => {
            let owner = attempt.object.owner;
            write!(text, "{owner} accepts ")?;
            write_named(text, index, log, *attempt)
        }
        Entry::Faulted {
            attempt,
            object,
            fault,
        } => {
            write_named(text, index, log, *attempt)?;
            write_lack(text, *object, *fault)
        }
        _ => Ok(()),
    }
}

/// Writes what came of an event.
fn write_entry(
    text: &mut String,
    contents: Contents,
    index: &BirthIndex,
    log: &[Entry],
    entry: &Entry,
) -> Result<(), AllocError>
    ensures { IsIndexOf index.now log.now → OnOk result
        (string_bytes text.new ≡ string_bytes text.old ++ entry_text contents (births log.now) entry.now) }
{
    match entry {
        Entry::In { .. } => Ok(()),
        Entry::Refused(refusal) => write_refusal(text, *refusal),
        Entry::Opened { worker, node } => write!(text, "{node} opens {worker}"),
        Entry::Printed(value) => write_print(text, contents, &value.inner),
        Entry::Resolved { object, fault } => write_resolve(text, *object, *fault),
        Entry::Released(object) => {
            let owner = object.owner;
            write!(text, "{owner} releases {object}")
        }
        _ => write_act(text, contents, index, log, entry),
    }
}

fn write_indent(text: &mut String, events: usize) -> Result<(), AllocError>
    ensures { OnOk result (string_bytes text.new ≡ string_bytes text.old ++ indent events) }
{
    if events == 0 {
        return Ok(());
    }
    text.push_str("    ")
}

fn add_line(
    text: &mut String,
    contents: Contents,
    index: &BirthIndex,
    log: &[Entry],
    told: &Told,
    entry: &Entry,
    is_refused: bool,
) -> Result<(), AllocError>
    requires { told.now.events + 1 < 2 ^ 64 }
    ensures { IsIndexOf index.now log.now → OnOk result (string_bytes text.new
        ≡ string_bytes text.old ++ line contents (births log.now) (told_of told.now) entry.now is_refused) }
{
    if let Entry::In { event, seat } = entry {
        return write_event(text, told.events + 1, &told.jobs, event, *seat, is_refused);
    }
    write_indent(text, told.events)?;
    write_entry(text, contents, index, log, entry)?;
    text.push_str("\n")
}

/// Writes the line of an entry, behind what was told before; `is_refused` says of an event that it is refused. An error is want of memory, and
/// then nothing is left of the text.
pub fn write_line(
    text: &mut String,
    contents: Contents,
    index: &BirthIndex,
    log: &[Entry],
    told: &Told,
    entry: &Entry,
    is_refused: bool,
) -> Result<(), AllocError>
    requires { told.now.events + 1 < 2 ^ 64 }
    ensures done { IsIndexOf index.now log.now → OnOk result (string_bytes text.new
        ≡ string_bytes text.old ++ line contents (births log.now) (told_of told.now) entry.now is_refused) }
    ensures err { OnErr result (string_bytes text.new ≡ []) }
{
    or_no_text(
        add_line(text, contents, index, log, told, entry, is_refused),
        text,
    )
}
