// Why an attempt was begun again: what became of the one before it.

ghost use Rattle.std.specs.Prelude.{◌≡◌, ◌++◌, [], OnErr, OnOk, string_bytes};
ghost use Rattle.std.specs.Option.{option_map};
ghost use Rattle.event_log.specs.Words.{births};
ghost use Rattle.report_text.specs.of_report_lines.Main.{first};
ghost use Rattle.log_words.specs.Index.{IsIndexOf};
ghost use Rattle.why_text.specs.Moments.{moment_of};
ghost use Rattle.why_text.specs.Again.{again_note, broken_text, death_text, died_by, died_head, died_text, is_accept_of, is_accepted_in, lost_text};
ghost use Rattle.why_text.specs.Again.{one_before, reason_text, runner_in, runner_of};
ghost use Rattle.why_text.specs.Results.{objects_of};

use crate::holders::death_of;
use crate::moments::{Moment, write_when};
use crate::results::objects_of;
use ids::{AttemptId, ObjectId, WorkerId};
use log_entries::{Entry, Event};
use log_words::BirthIndex;
use report::or_no_text;
use std::alloc::{AllocError, Global};

#[tactic(auto, unfolding(crate::specs::Again::is_accept_of))]
fn is_accept_of(attempt: AttemptId, entry: &Entry) -> bool
    ensures { result ≡ is_accept_of attempt entry.now }
{
    match entry {
        Entry::Accepted(accepted) => accepted.is(attempt),
        _ => false,
    }
}

/// Whether the owner learned how the attempt ended.
fn is_accepted_in(log: &[Entry], attempt: AttemptId) -> bool
    ensures { result ≡ is_accepted_in log.now attempt }
{
    for entry in log {
        if is_accept_of(attempt, entry) {
            return true;
        }
    }
    false
}

fn runner_in(attempt: AttemptId, entry: &Entry) -> Option<WorkerId>
    ensures { result ≡ first (runner_in attempt entry.now) }
{
    let Entry::Begun {
        attempt: begun,
        worker,
    } = entry
    else {
        return None;
    };
    if begun.is(attempt) {
        return Some(*worker);
    }
    None
}

/// The worker that ran the attempt.
pub fn runner_of(log: &[Entry], attempt: AttemptId) -> Option<WorkerId>
    ensures { result ≡ runner_of log.now attempt }
{
    for entry in log {
        if let Some(worker) = runner_in(attempt, entry) {
            return Some(worker);
        }
    }
    None
}

fn one_before(attempt: AttemptId) -> AttemptId
    ensures { result ≡ one_before attempt }
{
    AttemptId {
        object: attempt.object,
        number: attempt.number.saturating_sub(1),
    }
}

#[tactic(auto, unfolding(crate::specs::Again::lost_text))]
fn write_lost(text: &mut String, objects: &[ObjectId], attempt: AttemptId) -> Result<(), AllocError>
    ensures { OnOk result (string_bytes text.new ≡ string_bytes text.old ++ lost_text objects.now attempt) }
{
    if objects.len() > 1 {
        return write!(text, ", since a result of {attempt} was lost");
    }
    write!(text, ", since the result of {attempt} was lost")
}

/// Writes that a result of the attempt was lost; the index is that of the whole log.
fn write_lost_of(
    alloc: Global,
    text: &mut String,
    index: &BirthIndex,
    log: &[Entry],
    attempt: AttemptId,
) -> Result<(), AllocError>
    ensures { IsIndexOf index.now log.now → OnOk result
        (string_bytes text.new ≡ string_bytes text.old ++ lost_text (objects_of (births log.now) attempt) attempt) }
{
    let objects = objects_of(alloc, index, log, attempt)?;
    write_lost(text, &objects, attempt)
}

#[tactic(auto, unfolding(crate::specs::Again::died_by))]
fn write_died_by(text: &mut String, worker: WorkerId, event: &Event) -> Result<(), AllocError>
    ensures { OnOk result (string_bytes text.new ≡ string_bytes text.old ++ died_by worker event.now) }
{
    match event {
        Event::KillNode(node) => write!(text, ", since {node}, the node of {worker}, died"),
        _ => write!(text, ", since {worker} died"),
    }
}

fn write_died_head(
    text: &mut String,
    worker: WorkerId,
    event: Option<Event>,
) -> Result<(), AllocError>
    ensures { OnOk result (string_bytes text.new ≡ string_bytes text.old ++ died_head worker event) }
{
    let Some(event) = event else {
        return text.push_str(", since the one before it broke");
    };
    write_died_by(text, worker, &event)
}

fn write_died(text: &mut String, worker: WorkerId, death: Option<Moment>) -> Result<(), AllocError>
    ensures { OnOk result (string_bytes text.new ≡ string_bytes text.old ++ died_text worker (option_map moment_of death)) }
{
    let Some(moment) = death else {
        return text.push_str(", since the one before it broke");
    };
    write_died_head(text, worker, moment.event)?;
    write_when(text, &moment)
}

#[tactic(auto, unfolding(crate::specs::Again::death_text))]
fn write_death(
    alloc: Global,
    text: &mut String,
    log: &[Entry],
    lines: &[usize],
    worker: WorkerId,
) -> Result<(), AllocError>
    ensures { OnOk result (string_bytes text.new ≡ string_bytes text.old ++ death_text lines.now log.now worker) }
{
    let death = death_of(alloc, log, lines, worker.0)?;
    write_died(text, worker, death)
}

fn write_broken(
    alloc: Global,
    text: &mut String,
    log: &[Entry],
    lines: &[usize],
    runner: Option<WorkerId>,
) -> Result<(), AllocError>
    ensures { OnOk result (string_bytes text.new ≡ string_bytes text.old ++ broken_text lines.now log.now runner) }
{
    let Some(worker) = runner else {
        return text.push_str(", since the one before it broke");
    };
    write_death(alloc, text, log, lines, worker)
}

#[tactic(auto, unfolding(crate::specs::Again::reason_text))]
fn write_reason(
    alloc: Global,
    text: &mut String,
    index: &BirthIndex,
    log: &[Entry],
    before: &[Entry],
    lines: &[usize],
    attempt: AttemptId,
) -> Result<(), AllocError>
    ensures { IsIndexOf index.now log.now → OnOk result
        (string_bytes text.new ≡ string_bytes text.old ++ reason_text (births log.now) lines.now before.now attempt) }
{
    if is_accepted_in(before, attempt) {
        return write_lost_of(alloc, text, index, log, attempt);
    }
    write_broken(alloc, text, before, lines, runner_of(before, attempt))
}

/// Writes why a later attempt of a task was begun: since the worker of the one before it died, or its node, and when, or since a result of that
/// one was lost. `before` are the entries of the log before it, and `lines` are those of their events. An error is want of memory, and then nothing
/// is left of the text.
#[tactic(auto, unfolding(crate::specs::Again::again_note))]
pub fn write_again(
    alloc: Global,
    text: &mut String,
    index: &BirthIndex,
    log: &[Entry],
    before: &[Entry],
    lines: &[usize],
    attempt: AttemptId,
) -> Result<(), AllocError>
    ensures done { IsIndexOf index.now log.now → OnOk result
        (string_bytes text.new ≡ string_bytes text.old ++ again_note (births log.now) lines.now before.now attempt) }
    ensures err { OnErr result (string_bytes text.new ≡ []) }
{
    if attempt.number == 0 {
        return Ok(());
    }
    or_no_text(
        write_reason(alloc, text, index, log, before, lines, one_before(attempt)),
        text,
    )
}
