// What had an object, and which of that went with its owner.

ghost use Rattle.std.specs.Prelude.{◌≡◌, ◌∷◌, ◌++◌, [], IfOk, OnOk, if◌then◌else◌};
ghost use Rattle.std.specs.List.{filter};
ghost use Rattle.std.specs.Option.{option_map};
ghost use Rattle.task_spec.specs.Births.{birth_of};
ghost use Rattle.event_log.specs.Words.{births};
ghost use Rattle.report_text.specs.of_report_lines.Main.{first};
ghost use Rattle.log_words.specs.Index.{IsIndexOf};
ghost use Rattle.log_words.specs.of_made_objects.Made.{objects_made};
ghost use Rattle.log_text.specs.Mentions.{is_in_birth};
ghost use Rattle.why_text.specs.Moments.{first_moment, moment_of};
ghost use Rattle.why_text.specs.Results.{is_in_result, objects_of};
ghost use Rattle.why_text.specs.Holders.{death_from, death_of, gone_holder, gone_in, has, holders_in, is_death, is_found, is_from_above};
ghost use Rattle.why_text.specs.Holders.{is_gone, is_had_in, is_kept, is_owner_died, is_release_of, is_released_in, is_small_end};

use crate::moments::Moment;
use crate::results::{is_in_result, is_small_result, objects_of};
use crate::runs::is_node;
use held::{SharedContent, SmallList};
use ids::{AttemptId, ObjectId};
use log_entries::{Entry, Event};
use log_text::{is_among, is_in_birth, node_of, opened};
use log_words::{BirthIndex, add_objects, is_refusal_at};
use std::alloc::{AllocError, Global};
use task_spec::Birth;
use values::{Fault, FaultKind};

/// Whether the event kills the worker, or its node.
#[tactic(auto, unfolding(crate::specs::Holders::is_death))]
fn is_death(worker: u32, node: Option<u32>, entry: &Entry) -> bool
    ensures { result ≡ is_death worker node entry.now }
{
    match entry {
        Entry::In {
            event: Event::Kill(killed),
            ..
        } => killed.0 == worker,
        Entry::In {
            event: Event::KillNode(killed),
            ..
        } => is_node(killed.0, node),
        _ => false,
    }
}

fn death_from(log: &[Entry], lines: &[usize], worker: u32, node: Option<u32>) -> Option<Moment>
    ensures { option_map moment_of result ≡ death_from lines.now first_moment worker node log.now }
{
    let mut moment = Moment::first();
    for (place, entry) in log.iter().enumerate() {
        moment = moment.after(lines, entry);
        if is_death(worker, node, entry) && !is_refusal_at(log, place + 1) {
            return Some(moment);
        }
    }
    None
}

/// When the worker died, if the log says that it did.
#[tactic(auto, unfolding(crate::specs::Holders::death_of))]
pub fn death_of(
    alloc: Global,
    log: &[Entry],
    lines: &[usize],
    worker: u32,
) -> Result<Option<Moment>, AllocError>
    ensures { IfOk result (λ death. option_map moment_of death ≡ death_of lines.now log.now worker) }
{
    let nodes = opened(alloc, log)?;
    let node = node_of(&nodes, worker);
    Ok(death_from(log, lines, worker, node))
}

/// The objects of a birth, if the other stands in its put value or its arguments.
fn born_holders(
    alloc: Global,
    object: ObjectId,
    first: ObjectId,
    birth: &Birth,
) -> Result<Vec<ObjectId>, AllocError>
    ensures { IfOk result (λ holders. holders.items
        ≡ (if is_in_birth object (birth_of birth.now) then objects_made first (birth_of birth.now) else [])) }
{
    let mut holders = Vec::new(alloc);
    if is_in_birth(alloc, object, birth)? {
        add_objects(&mut holders, first, birth)?;
        return Ok(holders);
    }
    Ok(holders)
}

fn add_holder(
    alloc: Global,
    holders: &mut Vec<ObjectId>,
    object: ObjectId,
    attempt: AttemptId,
    results: &SmallList<SharedContent>,
    holder: ObjectId,
) -> Result<(), AllocError>
    ensures { OnOk result (holders.new.items ≡ holders.old.items ++ filter (is_in_result object attempt results.now) (holder ∷ [])) }
{
    if is_in_result(alloc, object, attempt, results, holder)? {
        return Ok(holders.push(holder)?);
    }
    Ok(())
}

/// Those of the objects in whose content the other stands, of those with which the attempt ended.
fn holders_among(
    alloc: Global,
    object: ObjectId,
    attempt: AttemptId,
    results: &SmallList<SharedContent>,
    objects: &[ObjectId],
) -> Result<Vec<ObjectId>, AllocError>
    ensures { IfOk result (λ holders. holders.items ≡ filter (is_in_result object attempt results.now) objects.now) }
{
    let mut holders = Vec::new(alloc);
    for holder in objects {
        add_holder(alloc, &mut holders, object, attempt, results, *holder)?;
    }
    Ok(holders)
}

fn ended_holders(
    alloc: Global,
    index: &BirthIndex,
    log: &[Entry],
    object: ObjectId,
    attempt: AttemptId,
    results: &SmallList<SharedContent>,
) -> Result<Vec<ObjectId>, AllocError>
    ensures { IsIndexOf index.now log.now → IfOk result
        (λ holders. holders.items ≡ filter (is_in_result object attempt results.now) (objects_of (births log.now) attempt)) }
{
    let objects = objects_of(alloc, index, log, attempt)?;
    holders_among(alloc, object, attempt, results, &objects)
}

/// The objects that have the other by the entry; the index is that of the whole log.
#[tactic(auto, unfolding(crate::specs::Holders::holders_in))]
fn holders_in(
    alloc: Global,
    index: &BirthIndex,
    log: &[Entry],
    object: ObjectId,
    entry: &Entry,
) -> Result<Vec<ObjectId>, AllocError>
    ensures { IsIndexOf index.now log.now → IfOk result (λ holders. holders.items ≡ holders_in (births log.now) object entry.now) }
{
    match entry {
        Entry::Born {
            object: first,
            birth,
            ..
        } => born_holders(alloc, object, *first, &birth.inner),
        Entry::Ended { attempt, contents } => {
            ended_holders(alloc, index, log, object, *attempt, contents)
        }
        _ => Ok(Vec::new(alloc)),
    }
}

#[tactic(auto, unfolding(crate::specs::Holders::is_release_of))]
fn is_release_of(object: ObjectId, entry: &Entry) -> bool
    ensures { result ≡ is_release_of object entry.now }
{
    match entry {
        Entry::Released(released) => released.is(object),
        _ => false,
    }
}

fn is_released_in(log: &[Entry], object: ObjectId) -> bool
    ensures { result ≡ is_released_in object log.now }
{
    for entry in log {
        if is_release_of(object, entry) {
            return true;
        }
    }
    false
}

fn is_found(death: Option<Moment>) -> bool
    ensures { result ≡ is_found (option_map moment_of death) }
{
    match death {
        None => false,
        Some(_) => true,
    }
}

/// Whether the object's owner died, and had not released it.
#[tactic(auto, unfolding(crate::specs::Holders::is_gone))]
fn is_gone(
    alloc: Global,
    log: &[Entry],
    lines: &[usize],
    object: ObjectId,
) -> Result<bool, AllocError>
    ensures { IfOk result (λ b. b ≡ is_gone lines.now log.now object) }
{
    if is_released_in(log, object) {
        return Ok(false);
    }
    let death = death_of(alloc, log, lines, object.owner.0)?;
    Ok(is_found(death))
}

/// The first of the objects that went with its owner.
fn first_gone(
    alloc: Global,
    before: &[Entry],
    lines: &[usize],
    holders: &[ObjectId],
) -> Result<Option<ObjectId>, AllocError>
    ensures { IfOk result (λ gone. gone ≡ first (filter (is_gone lines.now before.now) holders.now)) }
{
    for holder in holders {
        if is_gone(alloc, before, lines, *holder)? {
            return Ok(Some(*holder));
        }
    }
    Ok(None)
}

fn gone_in(
    alloc: Global,
    index: &BirthIndex,
    log: &[Entry],
    before: &[Entry],
    lines: &[usize],
    object: ObjectId,
    entry: &Entry,
) -> Result<Option<ObjectId>, AllocError>
    ensures { IsIndexOf index.now log.now → IfOk result
        (λ gone. gone ≡ first (gone_in (births log.now) lines.now before.now object entry.now)) }
{
    let holders = holders_in(alloc, index, log, object, entry)?;
    first_gone(alloc, before, lines, &holders)
}

/// The first object that had the other and went with its owner, by the entries before; the index is that of the whole log.
#[tactic(auto, unfolding(crate::specs::Holders::gone_holder))]
pub fn gone_holder(
    alloc: Global,
    index: &BirthIndex,
    log: &[Entry],
    before: &[Entry],
    lines: &[usize],
    object: ObjectId,
) -> Result<Option<ObjectId>, AllocError>
    ensures { IsIndexOf index.now log.now → IfOk result
        (λ gone. gone ≡ gone_holder (births log.now) lines.now before.now object) }
{
    for entry in before {
        if let Some(found) = gone_in(alloc, index, log, before, lines, object, entry)? {
            return Ok(Some(found));
        }
    }
    Ok(None)
}

fn is_had_in(
    alloc: Global,
    index: &BirthIndex,
    log: &[Entry],
    holder: ObjectId,
    object: ObjectId,
    entry: &Entry,
) -> Result<bool, AllocError>
    ensures { IsIndexOf index.now log.now → IfOk result (λ b. b ≡ is_had_in (births log.now) holder object entry.now) }
{
    let holders = holders_in(alloc, index, log, object, entry)?;
    Ok(is_among(holder, &holders))
}

/// Whether the first object had the second.
fn has(
    alloc: Global,
    index: &BirthIndex,
    log: &[Entry],
    before: &[Entry],
    holder: ObjectId,
    object: ObjectId,
) -> Result<bool, AllocError>
    ensures { IsIndexOf index.now log.now → IfOk result (λ b. b ≡ has (births log.now) before.now holder object) }
{
    for entry in before {
        if is_had_in(alloc, index, log, holder, object, entry)? {
            return Ok(true);
        }
    }
    Ok(false)
}

fn is_owner_died(kind: FaultKind) -> bool
    ensures { result ≡ is_owner_died kind }
{
    match kind {
        FaultKind::OwnerDied => true,
        _ => false,
    }
}

/// Whether the object was released, and the fault began in one that had it, whose owner died.
#[tactic(auto, unfolding(crate::specs::Holders::is_from_above))]
pub fn is_from_above(
    alloc: Global,
    index: &BirthIndex,
    log: &[Entry],
    before: &[Entry],
    object: ObjectId,
    fault: Fault,
) -> Result<bool, AllocError>
    ensures { IsIndexOf index.now log.now → IfOk result (λ b. b ≡ is_from_above (births log.now) before.now object fault) }
{
    if !is_owner_died(fault.kind) {
        return Ok(false);
    }
    if !is_released_in(before, object) {
        return Ok(false);
    }
    has(alloc, index, log, before, fault.object, object)
}

/// Whether the attempt ended so with a small content of the object.
#[tactic(auto, unfolding(crate::specs::Holders::is_small_end))]
fn is_small_end(attempt: AttemptId, object: ObjectId, entry: &Entry) -> bool
    ensures { result ≡ is_small_end attempt object entry.now }
{
    let Entry::Ended {
        attempt: ended,
        contents,
    } = entry
    else {
        return false;
    };
    if !ended.is(attempt) {
        return false;
    }
    is_small_result(attempt, contents, object)
}

/// Whether the attempt ended with a small content of the object, which its owner keeps once it accepts the end.
fn is_kept(before: &[Entry], attempt: AttemptId, object: ObjectId) -> bool
    ensures { result ≡ is_kept before.now attempt object }
{
    for entry in before {
        if is_small_end(attempt, object, entry) {
            return true;
        }
    }
    false
}

fn add_kept(
    kept: &mut Vec<ObjectId>,
    before: &[Entry],
    attempt: AttemptId,
    object: ObjectId,
) -> Result<(), AllocError>
    ensures { OnOk result (kept.new.items ≡ kept.old.items ++ filter (is_kept before.now attempt) (object ∷ [])) }
{
    if is_kept(before, attempt, object) {
        return Ok(kept.push(object)?);
    }
    Ok(())
}

/// Those of the objects that their owner keeps once it accepts the attempt's end.
pub fn kept_among(
    alloc: Global,
    before: &[Entry],
    attempt: AttemptId,
    objects: &[ObjectId],
) -> Result<Vec<ObjectId>, AllocError>
    ensures { IfOk result (λ kept. kept.items ≡ filter (is_kept before.now attempt) objects.now) }
{
    let mut kept = Vec::new(alloc);
    for object in objects {
        add_kept(&mut kept, before, attempt, *object)?;
    }
    Ok(kept)
}
