// What a log says of a worker, entry by entry.

ghost use Rattle.std.specs.Prelude.{◌≡◌, ◌++◌, [], IfOk, OnOk, if◌then◌else◌, string_bytes};
ghost use Rattle.log_words.specs.Index.{IsIndexOf};
ghost use Rattle.why_text.specs.Moments.{moment_of};
ghost use Rattle.endpoint_text.specs.Workers.{dies_with, entry_sentence, event_sentence, owned_by, owned_in, owned_note};
ghost use Rattle.endpoint_text.specs.Workers.{owned_text, seen_of, subject_of, worker_sentence};

use crate::deaths::{ran_on, write_death, write_death_with, write_opened};
use crate::lists::{is_one_of, write_ids};
use ids::{AttemptId, ObjectId, WorkerId};
use log_entries::{Entry, Event};
use log_text::{node_of, opened};
use log_words::{BirthIndex, Contents, add_objects};
use main_text::write_worker;
use protocol_data::Envelope;
use std::alloc::{AllocError, Global};
use why_text::{
    Moment, is_killed_in, is_node, write_accepted, write_began, write_ended, write_faulted,
    write_given_up, write_node_notice, write_notice,
};

/// A worker, the number of its node, whether it was killed for itself, and the attempts that it ran.
#[derive(Drop)]
pub struct Subject {
    pub worker: WorkerId,
    /// The number of its node; none where it was never opened.
    pub home: Option<u32>,
    /// Whether it was killed for itself, not with its node.
    pub was_killed: bool,
    /// The attempts that it ran, in order.
    pub attempts: Vec<AttemptId>,
}

impl Subject {
    /// The worker with what the log says of it.
    pub fn of(alloc: Global, log: &[Entry], worker: WorkerId) -> Result<Subject, AllocError>
        ensures { IfOk result (λ subject. seen_of subject ≡ subject_of log.now worker) }
    {
        let nodes = opened(alloc, log)?;
        let home = node_of(&nodes, worker.0);
        let was_killed = is_killed_in(log, worker.0);
        let attempts = ran_on(alloc, log, worker)?;
        Ok(Subject {
            worker,
            home,
            was_killed,
            attempts,
        })
    }

    /// Whether it dies with that node: it is on the node, and wasn't killed for itself.
    fn dies_with(&self, node: u32) -> bool
        ensures { result ≡ dies_with (seen_of self.now) node }
    {
        is_node(node, self.home) && !self.was_killed
    }
}

/// Writes what an event that was taken says of the worker.
fn write_event(
    text: &mut String,
    index: &BirthIndex,
    log: &[Entry],
    subject: &Subject,
    moment: &Moment,
    event: &Event,
) -> Result<(), AllocError>
    ensures { IsIndexOf index.now log.now → OnOk result (string_bytes text.new ≡ string_bytes text.old
        ++ event_sentence log.now (seen_of subject.now) (moment_of moment.now) event.now) }
{
    let about = subject.worker;
    match event {
        Event::Kill(worker) => {
            if worker.is(about) {
                return write_death(text, index, log, moment, *worker, &subject.attempts);
            }
            Ok(())
        }
        Event::KillNode(node) => {
            if subject.dies_with(node.0) {
                return write_death_with(text, index, log, moment, about, *node, &subject.attempts);
            }
            Ok(())
        }
        Event::Notice { worker, dead } => {
            if worker.is(about) || dead.is(about) {
                return write_notice(text, moment, *worker, *dead);
            }
            Ok(())
        }
        Event::NoticeNode { worker, dead } => {
            if worker.is(about) || is_node(dead.0, subject.home) {
                return write_node_notice(text, moment, *worker, *dead);
            }
            Ok(())
        }
        _ => Ok(()),
    }
}

/// Writes what the entry says of the worker, where it came of an event.
fn write_entry(
    alloc: Global,
    text: &mut String,
    contents: Contents,
    index: &BirthIndex,
    log: &[Entry],
    lines: &[usize],
    envelopes: &[Envelope],
    subject: &Subject,
    before: &[Entry],
    moment: &Moment,
    entry: &Entry,
) -> Result<(), AllocError>
    ensures { IsIndexOf index.now log.now → OnOk result (string_bytes text.new ≡ string_bytes text.old
        ++ entry_sentence contents log.now lines.now envelopes.now (seen_of subject.now) before.now (moment_of moment.now) entry.now) }
{
    let about = subject.worker;
    match entry {
        Entry::Opened { worker, node } => {
            if worker.is(about) {
                return write_opened(text, index, log, envelopes, moment, *worker, *node);
            }
            Ok(())
        }
        Entry::Begun { attempt, worker } => {
            if worker.is(about) {
                return write_began(
                    alloc, text, index, log, before, lines, moment, *attempt, *worker,
                );
            }
            Ok(())
        }
        Entry::Ended {
            attempt,
            contents: results,
        } => {
            if is_one_of(&subject.attempts, *attempt) {
                return write_ended(text, contents, index, log, moment, *attempt, results);
            }
            Ok(())
        }
        Entry::Accepted(attempt) => {
            if is_one_of(&subject.attempts, *attempt) {
                return write_accepted(alloc, text, index, log, before, moment, *attempt);
            }
            Ok(())
        }
        Entry::Faulted {
            attempt,
            object,
            fault,
        } => {
            if is_one_of(&subject.attempts, *attempt) {
                return write_faulted(
                    alloc, text, index, log, before, moment, *attempt, *object, *fault,
                );
            }
            Ok(())
        }
        Entry::Resolved { object, fault } => {
            if object.owner.is(about) {
                return write_given_up(text, moment, *object, *fault);
            }
            Ok(())
        }
        _ => Ok(()),
    }
}

fn write_event_unless(
    text: &mut String,
    index: &BirthIndex,
    log: &[Entry],
    subject: &Subject,
    moment: &Moment,
    event: &Event,
    is_refused: bool,
) -> Result<(), AllocError>
    ensures { IsIndexOf index.now log.now → OnOk result (string_bytes text.new ≡ string_bytes text.old
        ++ (if is_refused then [] else event_sentence log.now (seen_of subject.now) (moment_of moment.now) event.now)) }
{
    if is_refused {
        return Ok(());
    }
    write_event(text, index, log, subject, moment, event)
}

/// Writes what the entry says of the worker; `before` are the entries of the log before it, `lines` are the lines of the events, `envelopes` are the
/// run's messages, `moment` is that with the entry, and `is_refused` says of an event that it is refused.
#[tactic(auto, unfolding(crate::specs::Workers::worker_sentence))]
pub fn write_worker_sentence(
    alloc: Global,
    text: &mut String,
    contents: Contents,
    index: &BirthIndex,
    log: &[Entry],
    lines: &[usize],
    envelopes: &[Envelope],
    subject: &Subject,
    before: &[Entry],
    moment: &Moment,
    entry: &Entry,
    is_refused: bool,
) -> Result<(), AllocError>
    ensures { IsIndexOf index.now log.now → OnOk result (string_bytes text.new ≡ string_bytes text.old ++ worker_sentence contents log.now
        lines.now envelopes.now (seen_of subject.now) before.now (moment_of moment.now) entry.now is_refused) }
{
    if let Entry::In { event, .. } = entry {
        return write_event_unless(text, index, log, subject, moment, event, is_refused);
    }
    write_entry(
        alloc, text, contents, index, log, lines, envelopes, subject, before, moment, entry,
    )
}

fn add_owned(objects: &mut Vec<ObjectId>, worker: WorkerId, entry: &Entry) -> Result<(), AllocError>
    ensures { OnOk result (objects.new.items ≡ objects.old.items ++ owned_in worker entry.now) }
{
    let Entry::Born { object, birth, .. } = entry else {
        return Ok(());
    };
    if object.owner.is(worker) {
        return add_objects(objects, *object, &birth.inner);
    }
    Ok(())
}

/// The objects that the worker made.
fn owned_by(alloc: Global, log: &[Entry], worker: WorkerId) -> Result<Vec<ObjectId>, AllocError>
    ensures { IfOk result (λ objects. objects.items ≡ owned_by log.now worker) }
{
    let mut objects = Vec::new(alloc);
    for entry in log {
        add_owned(&mut objects, worker, entry)?;
    }
    Ok(objects)
}

fn write_owned_note(
    text: &mut String,
    contents: Contents,
    worker: WorkerId,
    objects: &[ObjectId],
) -> Result<(), AllocError>
    ensures { OnOk result (string_bytes text.new ≡ string_bytes text.old ++ owned_note contents worker objects.now) }
{
    let [_, ..] = objects else {
        return Ok(());
    };
    write_worker(text, worker)?;
    text.push_str(" made ")?;
    write_ids(text, contents, objects)?;
    text.push_str(".\n")
}

/// Writes what the worker made.
#[tactic(auto, unfolding(crate::specs::Workers::owned_text))]
pub fn write_owned(
    alloc: Global,
    text: &mut String,
    contents: Contents,
    log: &[Entry],
    worker: WorkerId,
) -> Result<(), AllocError>
    ensures { OnOk result (string_bytes text.new ≡ string_bytes text.old ++ owned_text contents log.now worker) }
{
    let objects = owned_by(alloc, log, worker)?;
    write_owned_note(text, contents, worker, &objects)
}
