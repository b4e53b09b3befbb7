// The way from an object to the one in which its fault began.

ghost use Rattle.std.specs.Prelude.{◌≡◌, ◌++◌, IfOk, OnOk, []};
ghost use Rattle.std.specs.List.{filter, flat_map, list_any};
ghost use Rattle.report_text.specs.of_report_lines.Main.{first};
ghost use Rattle.why_text.specs.Ways.{argument_among, argument_in, argument_to, is_found, lacked_in, leading_from, leading_in, leads, next_cause};
ghost use Rattle.why_text.specs.Ways.{next_from};

use ids::ObjectId;
use log_entries::Entry;
use log_words::{add_objects, task_of};
use std::alloc::{AllocError, Global};
use task_spec::dereferenced;

/// The object at whose get an attempt that is named by the other ended with a fault that began in the cause.
#[tactic(auto, unfolding(crate::specs::Ways::lacked_in))]
fn lacked_in(cause: ObjectId, task: ObjectId, entry: &Entry) -> Option<ObjectId>
    ensures { result ≡ first (lacked_in cause task entry.now) }
{
    let Entry::Faulted {
        attempt,
        object: got,
        fault,
    } = entry
    else {
        return None;
    };
    if attempt.object.is(task) && fault.object.is(cause) {
        return Some(*got);
    }
    None
}

/// The object that such an attempt lacked.
fn lacked(log: &[Entry], cause: ObjectId, task: ObjectId) -> Option<ObjectId>
    ensures { result ≡ first (flat_map (lacked_in cause task) log.now) }
{
    for entry in log {
        if let Some(found) = lacked_in(cause, task, entry) {
            return Some(found);
        }
    }
    None
}

fn is_found(found: &[ObjectId], object: ObjectId) -> bool
    ensures { result ≡ is_found found.now object }
{
    found.iter().any(|p| p.is(object))
}

/// Whether it is the cause, or one of those from which that is reached.
fn leads(cause: ObjectId, found: &[ObjectId], object: ObjectId) -> bool
    ensures { result ≡ leads cause found.now object }
{
    if object.is(cause) {
        return true;
    }
    is_found(found, object)
}

fn any_leads(cause: ObjectId, found: &[ObjectId], objects: &[ObjectId]) -> bool
    ensures { result ≡ list_any (leads cause found.now) objects.now }
{
    for object in objects {
        if leads(cause, found, *object) {
            return true;
        }
    }
    false
}

fn first_leading(cause: ObjectId, found: &[ObjectId], objects: &[ObjectId]) -> Option<ObjectId>
    ensures { result ≡ first (filter (leads cause found.now) objects.now) }
{
    for object in objects {
        if leads(cause, found, *object) {
            return Some(*object);
        }
    }
    None
}

/// Adds the objects that are born, if one of their dereferenced arguments leads to the cause.
#[tactic(auto, unfolding(crate::specs::Ways::leading_in))]
fn add_leading(
    alloc: Global,
    found: &mut Vec<ObjectId>,
    cause: ObjectId,
    entry: &Entry,
) -> Result<(), AllocError>
    ensures { OnOk result (found.new.items ≡ found.old.items ++ leading_in cause found.old.items entry.now) }
{
    let Entry::Born { object, birth, .. } = entry else {
        return Ok(());
    };
    let objects = dereferenced(&birth.inner, alloc)?;
    if any_leads(cause, found, &objects) {
        return add_objects(found, *object, &birth.inner);
    }
    Ok(())
}

/// The objects from which the cause is reached by dereferenced arguments, in birth order.
fn leading(alloc: Global, log: &[Entry], cause: ObjectId) -> Result<Vec<ObjectId>, AllocError>
    ensures { IfOk result (λ found. found.items ≡ leading_from cause [] log.now) }
{
    let mut found = Vec::new(alloc);
    for entry in log {
        add_leading(alloc, &mut found, cause, entry)?;
    }
    Ok(found)
}

/// The first dereferenced argument that leads to the cause, where the entry is the birth of the task with that first object.
#[tactic(auto, unfolding(crate::specs::Ways::argument_in))]
fn argument_in(
    alloc: Global,
    cause: ObjectId,
    found: &[ObjectId],
    task: ObjectId,
    entry: &Entry,
) -> Result<Option<ObjectId>, AllocError>
    ensures { IfOk result (λ argument. argument ≡ first (argument_in cause found.now task entry.now)) }
{
    let Entry::Born {
        object: born,
        birth,
        ..
    } = entry
    else {
        return Ok(None);
    };
    if !born.is(task) {
        return Ok(None);
    }
    let objects = dereferenced(&birth.inner, alloc)?;
    Ok(first_leading(cause, found, &objects))
}

fn argument_among(
    alloc: Global,
    log: &[Entry],
    cause: ObjectId,
    task: ObjectId,
    found: &[ObjectId],
) -> Result<Option<ObjectId>, AllocError>
    ensures { IfOk result (λ argument. argument ≡ argument_among log.now cause task found.now) }
{
    for entry in log {
        if let Some(argument) = argument_in(alloc, cause, found, task, entry)? {
            return Ok(Some(argument));
        }
    }
    Ok(None)
}

/// The first dereferenced argument of the task that leads to the cause.
fn argument_to(
    alloc: Global,
    log: &[Entry],
    cause: ObjectId,
    task: ObjectId,
) -> Result<Option<ObjectId>, AllocError>
    ensures { IfOk result (λ argument. argument ≡ argument_to log.now cause task) }
{
    let found = leading(alloc, log, cause)?;
    argument_among(alloc, log, cause, task, &found)
}

/// The next object on the way from a result of the task to the cause.
fn next_from(
    alloc: Global,
    log: &[Entry],
    cause: ObjectId,
    task: ObjectId,
) -> Result<ObjectId, AllocError>
    ensures { IfOk result (λ next. next ≡ next_from log.now cause task) }
{
    if let Some(found) = lacked(log, cause, task) {
        return Ok(found);
    }
    match argument_to(alloc, log, cause, task)? {
        None => Ok(cause),
        Some(argument) => Ok(argument),
    }
}

/// The next object on the way from that one to the cause, in which its fault began.
#[tactic(auto, unfolding(crate::specs::Ways::next_cause))]
pub fn next_cause(
    alloc: Global,
    log: &[Entry],
    cause: ObjectId,
    object: ObjectId,
) -> Result<ObjectId, AllocError>
    ensures { IfOk result (λ next. next ≡ next_cause log.now cause object) }
{
    next_from(alloc, log, cause, task_of(log, object))
}
