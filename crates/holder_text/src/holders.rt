// The lines of who holds an object and who waits for it.

ghost use Rattle.std.specs.Prelude.{◌≡◌, ◌++◌, [], IfOk, OnErr, OnOk, map, option_copied, string_bytes};
ghost use Rattle.std.specs.Option.{option_map};
ghost use Rattle.task_spec.specs.Births.{argument_of, birth_of};
ghost use Rattle.event_log.specs.Words.{births};
ghost use Rattle.log_words.specs.Index.{IsIndexOf};
ghost use Rattle.holder_text.specs.Holders.{argument_note, asker_line, askers_text, frame_head, frame_text, frame_line};
ghost use Rattle.holder_text.specs.Holders.{has_id, holder_line, holder_lines, holder_note, holders_text, is_argument};
ghost use Rattle.holder_text.specs.Holders.{is_going_on, source_of, mentions, way_note};

use ids::{AttemptId, ObjectId, WorkerId};
use log_entries::Entry;
use log_text::{or_no_text, write_named};
use log_words::{BirthIndex, ids_of, task_of};
use protocol_data::{Object, Worker};
use std::alloc::{AllocError, Global};
use task_spec::{Argument, Birth};

fn has_id(ids: &[ObjectId], object: ObjectId) -> bool
    ensures { result ≡ has_id object ids.now }
{
    ids.iter().any(|p| p.is(object))
}

/// Whether the object stands in the argument.
fn mentions(alloc: Global, argument: &Argument, object: ObjectId) -> Result<bool, AllocError>
    ensures { IfOk result (λ b. b ≡ mentions object (argument_of argument.now)) }
{
    let ids = ids_of(alloc, &argument.value)?;
    Ok(has_id(ids.as_slice(), object))
}

/// Whether the object stands in one of the arguments.
fn is_argument(alloc: Global, arguments: &[Argument], object: ObjectId) -> Result<bool, AllocError>
    ensures { IfOk result (λ b. b ≡ is_argument object (map argument_of arguments.now)) }
{
    for argument in arguments {
        if mentions(alloc, argument, object)? {
            return Ok(true);
        }
    }
    Ok(false)
}

#[tactic(auto, unfolding(crate::specs::Holders::argument_note))]
fn write_argument_note(text: &mut String, function: &str) -> Result<(), AllocError>
    ensures { OnOk result (string_bytes text.new ≡ string_bytes text.old ++ argument_note function.now) }
{
    write!(text, " as an argument of {function}\n")
}

fn write_way(text: &mut String, function: &str, in_argument: bool) -> Result<(), AllocError>
    ensures { OnOk result (string_bytes text.new ≡ string_bytes text.old ++ way_note function.now in_argument) }
{
    if in_argument {
        return write_argument_note(text, function);
    }
    text.push_str(" in its result\n")
}

/// Writes how the holder, which was born so, holds the object.
fn write_note(
    alloc: Global,
    text: &mut String,
    birth: Option<&Birth>,
    object: ObjectId,
) -> Result<(), AllocError>
    ensures { OnOk result (string_bytes text.new
        ≡ string_bytes text.old ++ holder_note object (option_map birth_of (option_copied birth.entry))) }
{
    let Some(birth) = birth else {
        return text.push_str("\n");
    };
    match birth {
        Birth::Put(_) => text.push_str(" in its value\n"),
        Birth::Task {
            function,
            arguments,
            ..
        } => {
            let in_argument = is_argument(alloc, arguments.as_slice(), object)?;
            write_way(text, function.as_str(), in_argument)
        }
    }
}

/// What makes the object: what was born with it first, else the task of which it is a further result.
fn source_of<'a>(index: &'a BirthIndex, log: &'a [Entry], object: ObjectId) -> Option<&'a Birth>
    ensures { IsIndexOf index.now log.now →
        option_map birth_of (option_copied result) ≡ source_of (births log.now) object }
{
    let Some(birth) = index.birth(log, object) else {
        return index.birth(log, task_of(log, object));
    };
    Some(birth)
}

#[tactic(auto, unfolding(crate::specs::Holders::holder_line))]
fn write_holder(
    alloc: Global,
    text: &mut String,
    index: &BirthIndex,
    log: &[Entry],
    object: ObjectId,
    holder: ObjectId,
) -> Result<(), AllocError>
    ensures { IsIndexOf index.now log.now → OnOk result
        (string_bytes text.new ≡ string_bytes text.old ++ holder_line log.now object holder) }
{
    write!(text, "{object}: held by {holder}")?;
    write_note(alloc, text, source_of(index, log, holder), object)
}

fn write_holder_unless(
    alloc: Global,
    text: &mut String,
    index: &BirthIndex,
    log: &[Entry],
    object: ObjectId,
    removed: &[ObjectId],
    holder: ObjectId,
) -> Result<(), AllocError>
    ensures { IsIndexOf index.now log.now → OnOk result
        (string_bytes text.new ≡ string_bytes text.old ++ holder_lines log.now object removed.now holder) }
{
    if has_id(removed, holder) {
        return Ok(());
    }
    write_holder(alloc, text, index, log, object, holder)
}

fn add_holders(
    alloc: Global,
    text: &mut String,
    index: &BirthIndex,
    log: &[Entry],
    object: ObjectId,
    row: &Object,
) -> Result<(), AllocError>
    ensures { IsIndexOf index.now log.now → OnOk result
        (string_bytes text.new ≡ string_bytes text.old ++ holders_text log.now object row.now.removed row.now.added) }
{
    for holder in row.added.as_slice() {
        write_holder_unless(
            alloc,
            text,
            index,
            log,
            object,
            row.removed.as_slice(),
            *holder,
        )?;
    }
    Ok(())
}

/// Writes each object that holds the object. An error is want of memory, and then nothing is left of the text.
pub fn write_holders(
    alloc: Global,
    text: &mut String,
    index: &BirthIndex,
    log: &[Entry],
    object: ObjectId,
    row: &Object,
) -> Result<(), AllocError>
    ensures done { IsIndexOf index.now log.now → OnOk result
        (string_bytes text.new ≡ string_bytes text.old ++ holders_text log.now object row.now.removed row.now.added) }
    ensures err { OnErr result (string_bytes text.new ≡ []) }
{
    or_no_text(add_holders(alloc, text, index, log, object, row), text)
}

/// Whether the attempt is the one that the worker runs, and isn't over.
fn is_going_on(worker: &Worker, attempt: AttemptId) -> bool
    ensures { result ≡ is_going_on worker.now.run attempt }
{
    match &worker.run {
        None => false,
        Some(run) => run.attempt.is(attempt) && !run.is_over,
    }
}

#[tactic(auto, unfolding(crate::specs::Holders::frame_head))]
fn write_frame_head(text: &mut String, object: ObjectId) -> Result<(), AllocError>
    ensures { OnOk result (string_bytes text.new ≡ string_bytes text.old ++ frame_head object) }
{
    write!(text, "{object}: held by the frame of ")
}

fn write_frame_of(
    text: &mut String,
    index: &BirthIndex,
    log: &[Entry],
    object: ObjectId,
    bearer: AttemptId,
) -> Result<(), AllocError>
    ensures { IsIndexOf index.now log.now → OnOk result
        (string_bytes text.new ≡ string_bytes text.old ++ frame_text log.now object bearer) }
{
    write_frame_head(text, object)?;
    write_named(text, index, log, bearer)?;
    text.push_str("\n")?;
    Ok(())
}

/// Writes that the attempt that made the object goes on, if it does. An error is want of memory, and then nothing is left of the text.
pub fn write_frame(
    text: &mut String,
    index: &BirthIndex,
    log: &[Entry],
    worker: &Worker,
    object: ObjectId,
    bearer: AttemptId,
) -> Result<(), AllocError>
    ensures done { IsIndexOf index.now log.now → OnOk result
        (string_bytes text.new ≡ string_bytes text.old ++ frame_line log.now worker.now object bearer) }
    ensures err { OnErr result (string_bytes text.new ≡ []) }
{
    if !is_going_on(worker, bearer) {
        return Ok(());
    }
    or_no_text(write_frame_of(text, index, log, object, bearer), text)
}

#[tactic(auto, unfolding(crate::specs::Holders::asker_line))]
fn write_asker(text: &mut String, object: ObjectId, asker: WorkerId) -> Result<(), AllocError>
    ensures { OnOk result (string_bytes text.new ≡ string_bytes text.old ++ asker_line object asker) }
{
    write!(text, "{object}: {asker} waits for it\n")
}

fn add_askers(text: &mut String, object: ObjectId, askers: &[WorkerId]) -> Result<(), AllocError>
    ensures { OnOk result (string_bytes text.new ≡ string_bytes text.old ++ askers_text object askers.now) }
{
    for asker in askers {
        write_asker(text, object, *asker)?;
    }
    Ok(())
}

/// Writes the other workers that wait for the object. An error is want of memory, and then nothing is left of the text.
pub fn write_askers(
    text: &mut String,
    object: ObjectId,
    askers: &[WorkerId],
) -> Result<(), AllocError>
    ensures done { OnOk result (string_bytes text.new ≡ string_bytes text.old ++ askers_text object askers.now) }
    ensures err { OnErr result (string_bytes text.new ≡ []) }
{
    or_no_text(add_askers(text, object, askers), text)
}
