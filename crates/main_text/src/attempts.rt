// For what attempts wait, and how far they are, in sentences.

ghost use Rattle.std.specs.Prelude.{◌≡◌, ◌++◌, OnOk, option_copied, string_bytes};
ghost use Rattle.std.specs.Option.{option_map};
ghost use Rattle.task_spec.specs.Births.{birth_of};
ghost use Rattle.event_log.specs.Words.{births};
ghost use Rattle.log_words.specs.Index.{IsIndexOf};
ghost use Rattle.main_text.specs.Links.{ask_text, birth_note, copy_text, end_text, fetch_text, hold_text};
ghost use Rattle.main_text.specs.Links.{knowledge_text};
ghost use Rattle.main_text.specs.Links.{made_by, made_text, result_note};
ghost use Rattle.main_text.specs.Links.{run_text, stopped_text};
ghost use Rattle.main_text.specs.Links.{wait_text};

use crate::endpoints::{write_node, write_owner, write_owner_of, write_worker};
use crate::happenings::{Happening, write_when_last};
use ids::{AttemptId, NodeId, ObjectId, WorkerId};
use log_entries::Entry;
use log_text::write_named;
use log_words::{BirthIndex, Contents, task_of, write_birth};
use protocol_data::ClusterState;
use std::alloc::{AllocError, Global};
use task_spec::Birth;
use why_text::write_again;

fn write_birth_note(
    text: &mut String,
    contents: Contents,
    birth: Option<&Birth>,
) -> Result<(), AllocError>
    ensures { OnOk result (string_bytes text.new ≡ string_bytes text.old ++ birth_note contents (option_map birth_of (option_copied birth.entry))) }
{
    let Some(birth) = birth else {
        return Ok(());
    };
    text.push_str(": ")?;
    write_birth(text, contents, birth)
}

/// Writes which of a task's results it is, counted from 0, if it isn't the first.
#[tactic(auto, unfolding(crate::specs::Links::result_note))]
fn write_result_note(text: &mut String, place: u64) -> Result<(), AllocError>
    ensures { OnOk result (string_bytes text.new ≡ string_bytes text.old ++ result_note place) }
{
    if place == 0 {
        return Ok(());
    }
    let number = place as u128 + 1;
    write!(text, ", result {number}")
}

/// Writes the object, whose task is named by that one, with what makes it.
fn write_made_by(
    text: &mut String,
    contents: Contents,
    index: &BirthIndex,
    log: &[Entry],
    object: ObjectId,
    task: ObjectId,
) -> Result<(), AllocError>
    ensures { IsIndexOf index.now log.now → OnOk result
        (string_bytes text.new ≡ string_bytes text.old ++ made_by contents (births log.now) object task) }
{
    write!(text, "{object}")?;
    write_birth_note(text, contents, index.birth(log, task))?;
    write_result_note(text, object.serial.saturating_sub(task.serial))
}

/// Writes the object with what makes it.
#[tactic(auto, unfolding(crate::specs::Links::made_text))]
pub fn write_made(
    text: &mut String,
    contents: Contents,
    index: &BirthIndex,
    log: &[Entry],
    object: ObjectId,
) -> Result<(), AllocError>
    ensures { IsIndexOf index.now log.now → OnOk result (string_bytes text.new ≡ string_bytes text.old ++ made_text contents (births log.now) object) }
{
    write_made_by(text, contents, index, log, object, task_of(log, object))
}

#[tactic(auto, unfolding(crate::specs::Links::stopped_text))]
fn write_stopped(
    text: &mut String,
    index: &BirthIndex,
    log: &[Entry],
    lines: &[usize],
    whole: &ClusterState,
    worker: WorkerId,
    attempt: AttemptId,
) -> Result<(), AllocError>
    ensures { IsIndexOf index.now log.now → OnOk result
        (string_bytes text.new ≡ string_bytes text.old ++ stopped_text log.now lines.now whole.now worker attempt) }
{
    write_named(text, index, log, attempt)?;
    text.push_str(" stopped")?;
    write_when_last(text, whole, lines, log, &Happening::Commits(worker))?;
    Ok(())
}

/// Writes for what the attempt waits.
pub fn write_wait(
    text: &mut String,
    contents: Contents,
    index: &BirthIndex,
    log: &[Entry],
    lines: &[usize],
    whole: &ClusterState,
    worker: WorkerId,
    attempt: AttemptId,
    object: ObjectId,
) -> Result<(), AllocError>
    ensures { IsIndexOf index.now log.now → OnOk result
        (string_bytes text.new ≡ string_bytes text.old ++ wait_text contents log.now lines.now whole.now worker attempt object) }
{
    write_stopped(text, index, log, lines, whole, worker, attempt)?;
    text.push_str(", and waits for ")?;
    write_made(text, contents, index, log, object)?;
    text.push_str(".\n")?;
    Ok(())
}

fn write_copy(text: &mut String, worker: WorkerId, node: NodeId) -> Result<(), AllocError>
    ensures { OnOk result (string_bytes text.new ≡ string_bytes text.old ++ copy_text worker node) }
{
    write_worker(text, worker)?;
    text.push_str(" asked ")?;
    write_node(text, node)?;
    text.push_str(" for a copy.\n")?;
    Ok(())
}

/// Writes for what the attempt waits, and where a copy was asked for.
pub fn write_fetch(
    text: &mut String,
    contents: Contents,
    index: &BirthIndex,
    log: &[Entry],
    lines: &[usize],
    whole: &ClusterState,
    worker: WorkerId,
    attempt: AttemptId,
    object: ObjectId,
    node: NodeId,
) -> Result<(), AllocError>
    ensures { IsIndexOf index.now log.now → OnOk result
        (string_bytes text.new ≡ string_bytes text.old ++ fetch_text contents log.now lines.now whole.now worker attempt object node) }
{
    write_wait(
        text, contents, index, log, lines, whole, worker, attempt, object,
    )?;
    write_copy(text, worker, node)?;
    Ok(())
}

/// Writes that the owner does not know how the attempt ended.
pub fn write_end(
    text: &mut String,
    index: &BirthIndex,
    log: &[Entry],
    lines: &[usize],
    whole: &ClusterState,
    attempt: AttemptId,
) -> Result<(), AllocError>
    ensures { IsIndexOf index.now log.now → OnOk result
        (string_bytes text.new ≡ string_bytes text.old ++ end_text log.now lines.now whole.now attempt) }
{
    write_named(text, index, log, attempt)?;
    text.push_str(" ended")?;
    write_when_last(text, whole, lines, log, &Happening::Stops(attempt))?;
    text.push_str(", which ")?;
    write_owner_of(text, attempt)?;
    text.push_str(" does not know.\n")?;
    Ok(())
}

#[tactic(auto, unfolding(crate::specs::Links::knowledge_text))]
fn write_knowledge(text: &mut String, holder: ObjectId, object: ObjectId) -> Result<(), AllocError>
    ensures { OnOk result (string_bytes text.new ≡ string_bytes text.old ++ knowledge_text holder object) }
{
    write!(text, " knows that {holder} has {object}.\n")
}

/// Writes what the worker waits to know before it tells how its attempt ended.
pub fn write_hold(
    text: &mut String,
    worker: WorkerId,
    holder: ObjectId,
    object: ObjectId,
) -> Result<(), AllocError>
    ensures { OnOk result (string_bytes text.new ≡ string_bytes text.old ++ hold_text worker holder object) }
{
    write_worker(text, worker)?;
    text.push_str(" does not tell of it before ")?;
    write_owner(text, object)?;
    write_knowledge(text, holder, object)?;
    Ok(())
}

/// Writes where a worker was asked for.
pub fn write_ask(
    text: &mut String,
    index: &BirthIndex,
    log: &[Entry],
    attempt: AttemptId,
    node: NodeId,
) -> Result<(), AllocError>
    ensures { IsIndexOf index.now log.now → OnOk result
        (string_bytes text.new ≡ string_bytes text.old ++ ask_text log.now attempt node) }
{
    write_named(text, index, log, attempt)?;
    text.push_str(" has not begun: ")?;
    write_owner_of(text, attempt)?;
    text.push_str(" asked ")?;
    write_node(text, node)?;
    text.push_str(" for a worker.\n")?;
    Ok(())
}

/// Writes where the attempt began, and why, if it is a later one.
pub fn write_run(
    alloc: Global,
    text: &mut String,
    index: &BirthIndex,
    log: &[Entry],
    lines: &[usize],
    whole: &ClusterState,
    attempt: AttemptId,
    worker: WorkerId,
) -> Result<(), AllocError>
    ensures { IsIndexOf index.now log.now → OnOk result
        (string_bytes text.new ≡ string_bytes text.old ++ run_text log.now lines.now whole.now attempt worker) }
{
    write_named(text, index, log, attempt)?;
    text.push_str(" began on ")?;
    write_worker(text, worker)?;
    write_when_last(text, whole, lines, log, &Happening::Begins(attempt))?;
    write_again(alloc, text, index, log, log, lines, attempt)?;
    text.push_str(".\n")?;
    Ok(())
}
