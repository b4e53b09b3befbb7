// What is told beside a release, a fault and an end that was accepted; the log is what stands before these.

ghost use Rattle.std.specs.Prelude.{◌≡◌, ◌++◌, OnOk, string_bytes};
ghost use Rattle.std.specs.List.{flat_map};
ghost use Rattle.std.specs.Option.{option_map};
ghost use Rattle.event_log.specs.Words.{births};
ghost use Rattle.log_words.specs.Index.{IsIndexOf};
ghost use Rattle.log_words.specs.Tasks.{listed_text, other_object};
ghost use Rattle.why_text.specs.Moments.{moment_of};
ghost use Rattle.why_text.specs.Notes.{above_note, death_head, death_note, death_text, fault_note, holder_note, kept_note, kept_text, owner_text};
ghost use Rattle.why_text.specs.Notes.{release_note, several_kept};

use crate::holders::{death_of, gone_holder, is_from_above, kept_among};
use crate::moments::{Moment, write_when};
use crate::results::objects_of;
use ids::{AttemptId, ObjectId, WorkerId};
use log_entries::Entry;
use log_words::BirthIndex;
use std::alloc::{AllocError, Global};
use values::Fault;

#[tactic(auto, unfolding(crate::specs::Notes::death_head))]
fn write_death_head(text: &mut String, holder: ObjectId) -> Result<(), AllocError>
    ensures { OnOk result (string_bytes text.new ≡ string_bytes text.old ++ death_head holder) }
{
    let owner = holder.owner;
    write!(
        text,
        ", since {owner}, the owner of {holder}, which had it, died"
    )
}

fn write_death(text: &mut String, holder: ObjectId, death: Option<Moment>) -> Result<(), AllocError>
    ensures { OnOk result (string_bytes text.new ≡ string_bytes text.old ++ death_text holder (option_map moment_of death)) }
{
    let Some(moment) = death else {
        return Ok(());
    };
    write_death_head(text, holder)?;
    write_when(text, &moment)
}

/// Writes that the object's owner died, and when.
#[tactic(auto, unfolding(crate::specs::Notes::death_note))]
fn write_death_note(
    alloc: Global,
    text: &mut String,
    log: &[Entry],
    lines: &[usize],
    holder: ObjectId,
) -> Result<(), AllocError>
    ensures { OnOk result (string_bytes text.new ≡ string_bytes text.old ++ death_note lines.now log.now holder) }
{
    let death = death_of(alloc, log, lines, holder.owner.0)?;
    write_death(text, holder, death)
}

fn write_holder_note(
    alloc: Global,
    text: &mut String,
    log: &[Entry],
    lines: &[usize],
    holder: Option<ObjectId>,
) -> Result<(), AllocError>
    ensures { OnOk result
        (string_bytes text.new ≡ string_bytes text.old ++ holder_note lines.now log.now holder) }
{
    let Some(holder) = holder else {
        return Ok(());
    };
    write_death_note(alloc, text, log, lines, holder)
}

/// Writes why nothing needs the object any more, where what had it went with its owner.
#[tactic(auto, unfolding(crate::specs::Notes::release_note))]
pub fn write_release_note(
    alloc: Global,
    text: &mut String,
    index: &BirthIndex,
    log: &[Entry],
    before: &[Entry],
    lines: &[usize],
    object: ObjectId,
) -> Result<(), AllocError>
    ensures { IsIndexOf index.now log.now → OnOk result
        (string_bytes text.new ≡ string_bytes text.old ++ release_note (births log.now) lines.now before.now object) }
{
    let holder = gone_holder(alloc, index, log, before, lines, object)?;
    write_holder_note(alloc, text, before, lines, holder)
}

/// The worker that owns the object.
fn owner_of(object: ObjectId) -> WorkerId
    ensures { result ≡ object.owner }
{
    object.owner
}

/// Writes the worker that owns the object.
#[tactic(auto, unfolding(crate::specs::Notes::owner_text))]
pub fn write_owner_of(text: &mut String, object: ObjectId) -> Result<(), AllocError>
    ensures { OnOk result (string_bytes text.new ≡ string_bytes text.old ++ owner_text object) }
{
    let owner = owner_of(object);
    write!(text, "{owner}")
}

#[tactic(auto, unfolding(crate::specs::Notes::above_note))]
fn write_above_note(text: &mut String, object: ObjectId, holder: ObjectId) -> Result<(), AllocError>
    ensures { OnOk result (string_bytes text.new ≡ string_bytes text.old ++ above_note object holder) }
{
    write!(text, "; {object}, which {holder} had, was released")
}

/// Writes why the fault of one object answers a get of another.
#[tactic(auto, unfolding(crate::specs::Notes::fault_note))]
pub fn write_fault_note(
    alloc: Global,
    text: &mut String,
    index: &BirthIndex,
    log: &[Entry],
    before: &[Entry],
    object: ObjectId,
    fault: Fault,
) -> Result<(), AllocError>
    ensures { IsIndexOf index.now log.now → OnOk result
        (string_bytes text.new ≡ string_bytes text.old ++ fault_note (births log.now) before.now object fault) }
{
    if is_from_above(alloc, index, log, before, object, fault)? {
        return write_above_note(text, object, fault.object);
    }
    Ok(())
}

fn write_others(text: &mut String, objects: &[ObjectId]) -> Result<(), AllocError>
    ensures { OnOk result (string_bytes text.new ≡ string_bytes text.old ++ flat_map other_object objects.now) }
{
    for object in objects {
        write!(text, ", {object}")?;
    }
    Ok(())
}

/// Writes the objects, such as `o1.2, o1.3`.
fn write_listed(text: &mut String, objects: &[ObjectId]) -> Result<(), AllocError>
    ensures { OnOk result (string_bytes text.new ≡ string_bytes text.old ++ listed_text objects.now) }
{
    let [first, others @ ..] = objects else {
        return Ok(());
    };
    write!(text, "{first}")?;
    write_others(text, others)
}

#[tactic(auto, unfolding(crate::specs::Notes::several_kept))]
fn write_several_kept(text: &mut String, kept: &[ObjectId]) -> Result<(), AllocError>
    ensures { OnOk result (string_bytes text.new ≡ string_bytes text.old ++ several_kept kept.now) }
{
    text.push_str(", and keeps ")?;
    write_listed(text, kept)?;
    text.push_str(" itself, which no node can lose")?;
    Ok(())
}

fn write_kept(text: &mut String, objects: &[ObjectId], kept: &[ObjectId]) -> Result<(), AllocError>
    ensures { OnOk result (string_bytes text.new ≡ string_bytes text.old ++ kept_text objects.now kept.now) }
{
    let [_, ..] = kept else {
        return Ok(());
    };
    if objects.len() > 1 {
        return write_several_kept(text, kept);
    }
    text.push_str(", and keeps the result itself: no node can lose it")
}

/// Writes that the owner keeps the attempt's result itself, where that is small; of several results, which.
#[tactic(auto, unfolding(crate::specs::Notes::kept_note))]
pub fn write_kept_note(
    alloc: Global,
    text: &mut String,
    index: &BirthIndex,
    log: &[Entry],
    before: &[Entry],
    attempt: AttemptId,
) -> Result<(), AllocError>
    ensures { IsIndexOf index.now log.now → OnOk result
        (string_bytes text.new ≡ string_bytes text.old ++ kept_note (births log.now) before.now attempt) }
{
    let objects = objects_of(alloc, index, log, attempt)?;
    let kept = kept_among(alloc, before, attempt, &objects)?;
    write_kept(text, &objects, &kept)
}
