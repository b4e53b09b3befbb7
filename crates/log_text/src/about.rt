// What is said of an object.

ghost use Rattle.std.specs.Prelude.{◌≡◌, IfOk};
ghost use Rattle.log_text.specs.About.{befalls, is_about, is_ahead, is_event_shown, is_of_task, is_shown, seen_of};

use crate::mentions::{is_among, is_in_birth, is_in_content, is_in_contents};
use crate::runners::{Subject, is_one};
use ids::ObjectId;
use log_entries::{Entry, Event};
use log_words::is_refusal_at;
use std::alloc::{AllocError, Global};

/// Whether the entry names the object, or an attempt of its task.
#[tactic(auto, unfolding(crate::specs::About::is_about))]
fn is_about(alloc: Global, subject: &Subject, entry: &Entry) -> Result<bool, AllocError>
    ensures { IfOk result (λ b. b ≡ is_about (seen_of subject.now) entry.now) }
{
    match entry {
        Entry::Begun { attempt, .. } | Entry::Accepted(attempt) => {
            Ok(attempt.object.is(subject.task))
        }
        Entry::Born {
            object: born,
            birth,
            ..
        } => {
            if born.is(subject.task) {
                return Ok(true);
            }
            is_in_birth(alloc, subject.object, &birth.inner)
        }
        Entry::Got {
            attempt,
            object: got,
            content,
        } => {
            if attempt.object.is(subject.task) {
                return Ok(true);
            }
            if got.is(subject.object) {
                return Ok(true);
            }
            is_in_content(alloc, subject.object, &content.inner)
        }
        Entry::Ended { attempt, contents } => {
            if attempt.object.is(subject.task) {
                return Ok(true);
            }
            is_in_contents(alloc, subject.object, contents)
        }
        Entry::Faulted {
            attempt,
            object: got,
            fault,
        } => {
            if attempt.object.is(subject.task) {
                return Ok(true);
            }
            if got.is(subject.object) {
                return Ok(true);
            }
            Ok(fault.object.is(subject.object))
        }
        Entry::Resolved {
            object: resolved,
            fault,
        } => {
            if resolved.is(subject.object) {
                return Ok(true);
            }
            Ok(fault.object.is(subject.object))
        }
        Entry::Released(released) => Ok(released.is(subject.object)),
        _ => Ok(false),
    }
}

/// Whether it is the object, or another result of its task, with which the object is made again.
#[tactic(auto, unfolding(crate::specs::About::is_of_task))]
fn is_of_task(subject: &Subject, object: ObjectId) -> bool
    ensures { result ≡ is_of_task (seen_of subject.now) object }
{
    object.is(subject.object) || is_among(object, &subject.results)
}

/// Whether the event befalls the object, another result of its task, a worker that ran an attempt of it, or the node of one.
#[tactic(auto, unfolding(crate::specs::About::befalls))]
fn befalls(subject: &Subject, event: &Event) -> bool
    ensures { result ≡ befalls (seen_of subject.now) event.now }
{
    match event {
        Event::Kill(worker) => is_one(&subject.workers, worker.0),
        Event::KillNode(node) => is_one(&subject.nodes, node.0),
        Event::Notice { dead, .. } => is_one(&subject.workers, dead.0),
        Event::NoticeNode { dead, .. } => is_one(&subject.nodes, dead.0),
        Event::Evict { object, .. } => object.is(subject.object),
        Event::Lose { object, .. } => is_of_task(subject, *object),
        _ => false,
    }
}

/// Whether something about the object came of the event to which these entries belong.
fn is_ahead(alloc: Global, subject: &Subject, rest: &[Entry]) -> Result<bool, AllocError>
    ensures { IfOk result (λ b. b ≡ is_ahead (seen_of subject.now) rest.now) }
{
    for entry in rest {
        if let Entry::In { .. } = entry {
            return Ok(false);
        }
        if is_about(alloc, subject, entry)? {
            return Ok(true);
        }
    }
    Ok(false)
}

fn is_event_shown(
    alloc: Global,
    subject: &Subject,
    event: &Event,
    rest: &[Entry],
) -> Result<bool, AllocError>
    ensures { IfOk result (λ b. b ≡ is_event_shown (seen_of subject.now) event.now rest.now) }
{
    if is_refusal_at(rest, 0) {
        return is_ahead(alloc, subject, rest);
    }
    if befalls(subject, event) {
        return Ok(true);
    }
    is_ahead(alloc, subject, rest)
}

/// Whether the entry belongs to the object's story; `rest` are the entries behind it.
pub fn is_shown(
    alloc: Global,
    subject: &Subject,
    entry: &Entry,
    rest: &[Entry],
) -> Result<bool, AllocError>
    ensures { IfOk result (λ b. b ≡ is_shown (seen_of subject.now) entry.now rest.now) }
{
    match entry {
        Entry::In { event, .. } => is_event_shown(alloc, subject, event, rest),
        _ => is_about(alloc, subject, entry),
    }
}
