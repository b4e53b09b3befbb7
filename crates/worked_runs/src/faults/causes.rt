// The cause of a fault, looked for in a log. What causes which fault stands in docs/log.md.

use ids::{AttemptId, NodeId, ObjectId, WorkerId};
use log_entries::{Entry, Event};
use std::alloc::{AllocError, Global};
use task_spec::Birth;
use values::{Fault, FaultKind};

/// The event at a place of the log, if it is one that was accepted.
fn accepted_at(log: &[Entry], place: usize) -> Option<Event> {
    if place >= log.len() {
        return None;
    }
    let Entry::In { event, .. } = &log[place] else {
        return None;
    };
    if place + 1 < log.len() {
        if let Entry::Refused(_) = &log[place + 1] {
            return None;
        }
    }
    Some(*event)
}

/// The node that the worker was opened on.
fn node_of(log: &[Entry], worker: WorkerId) -> Option<NodeId> {
    for entry in log {
        if let Entry::Opened { worker: w, node } = entry {
            if w.0 == worker.0 {
                return Some(*node);
            }
        }
    }
    None
}

/// Whether the event is the death of the worker or of its node.
fn kills(event: &Event, worker: WorkerId, node: NodeId) -> bool {
    match event {
        Event::Kill(w) => w.0 == worker.0,
        Event::KillNode(n) => n.0 == node.0,
        _ => false,
    }
}

/// Whether the event is the loss of the object's copies at the node.
fn loses(event: &Event, node: NodeId, object: ObjectId) -> bool {
    match event {
        Event::Lose { node: n, object: o } => n.0 == node.0 && *o == object,
        _ => false,
    }
}

/// Whether a death of the worker or of its node was accepted.
fn is_killed(log: &[Entry], worker: WorkerId) -> bool {
    let Some(node) = node_of(log, worker) else {
        return false;
    };
    for place in 0..log.len() {
        if let Some(event) = accepted_at(log, place) {
            if kills(&event, worker, node) {
                return true;
            }
        }
    }
    false
}

/// Whether the object was put, and then a loss of it on its owner's node was accepted.
fn put_is_lost(log: &[Entry], object: ObjectId) -> bool {
    let Some(node) = node_of(log, object.owner) else {
        return false;
    };
    let mut is_put = false;
    for place in 0..log.len() {
        if let Entry::Born {
            object: o,
            birth,
            ..
        } = &log[place]
        {
            if *o == object {
                is_put = matches!(&*birth.inner, Birth::Put(_));
            }
        }
        if let Some(event) = accepted_at(log, place) {
            if is_put && loses(&event, node, object) {
                return true;
            }
        }
    }
    false
}

/// How many new runs the object's task allows.
fn retries_of(log: &[Entry], object: ObjectId) -> Option<u8> {
    for entry in log {
        if let Entry::Born {
            object: o,
            birth,
            ..
        } = entry
        {
            if *o == object {
                return match &*birth.inner {
                    Birth::Task { retries, .. } => Some(*retries),
                    Birth::Put(_) => None,
                };
            }
        }
    }
    None
}

/// The workers on which the object's attempts were begun, one after the other.
fn runs_of(alloc: Global, log: &[Entry], object: ObjectId) -> Result<Vec<WorkerId>, AllocError> {
    let mut workers = Vec::new(alloc);
    for entry in log {
        if let Entry::Begun { attempt, worker } = entry {
            if attempt.object == object {
                workers.push(*worker)?;
            }
        }
    }
    Ok(workers)
}

fn is_accepted(log: &[Entry], attempt: AttemptId) -> bool {
    for entry in log {
        if let Entry::Accepted(a) = entry {
            if *a == attempt {
                return true;
            }
        }
    }
    false
}

/// An attempt as one that can break: its worker with its node, and whether it was accepted.
#[derive(Clone, Copy)]
struct Standing {
    attempt: AttemptId,
    worker: WorkerId,
    node: NodeId,
    is_accepted: bool,
}

/// Whether the event breaks the attempt: a death of its worker or its worker's node, unless it was accepted; or, once it has ended, a death of that node, or a
/// loss of its object there.
fn breaks(standing: &Standing, has_ended: bool, event: &Event) -> bool {
    if kills(event, standing.worker, standing.node) && !standing.is_accepted {
        return true;
    }
    if !has_ended {
        return false;
    }
    match event {
        Event::KillNode(node) => node.0 == standing.node.0,
        _ => loses(event, standing.node, standing.attempt.object),
    }
}

/// Whether the entry is the attempt's end.
fn is_end_of(entry: &Entry, attempt: AttemptId) -> bool {
    match entry {
        Entry::Ended { attempt: a, .. } => *a == attempt,
        _ => false,
    }
}

/// The first place from `from` on whose event breaks the attempt.
fn break_place(log: &[Entry], standing: &Standing, from: usize) -> Option<usize> {
    let mut has_ended = false;
    for place in 0..log.len() {
        if is_end_of(&log[place], standing.attempt) {
            has_ended = true;
        }
        if let Some(event) = accepted_at(log, place) {
            if place >= from && breaks(standing, has_ended, &event) {
                return Some(place);
            }
        }
    }
    None
}

/// The attempt as one that can break, by all that the log says.
fn standing_of(log: &[Entry], attempt: AttemptId, worker: WorkerId) -> Option<Standing> {
    let node = node_of(log, worker)?;
    Some(Standing {
        attempt,
        worker,
        node,
        is_accepted: is_accepted(log, attempt),
    })
}

/// Whether all runs that the object's task is allowed were begun, and are broken by events at rising places.
fn retries_are_used(alloc: Global, log: &[Entry], object: ObjectId) -> Result<bool, AllocError> {
    let Some(retries) = retries_of(log, object) else {
        return Ok(false);
    };
    let workers = runs_of(alloc, log, object)?;
    let mut from = 0usize;
    let mut number = 0u32;
    for worker in workers.as_slice() {
        let attempt = AttemptId { object, number };
        let Some(standing) = standing_of(log, attempt, *worker) else {
            return Ok(false);
        };
        let Some(place) = break_place(log, &standing, from) else {
            return Ok(false);
        };
        from = place.saturating_add(1);
        number = number.saturating_add(1);
    }
    Ok(number == u32::from(retries).saturating_add(1))
}

/// Whether the fault's cause stands in the log.
pub fn has_cause(alloc: Global, log: &[Entry], fault: Fault) -> Result<bool, AllocError> {
    match fault.kind {
        FaultKind::OwnerDied => Ok(is_killed(log, fault.object.owner)),
        FaultKind::PutLost => Ok(put_is_lost(log, fault.object)),
        FaultKind::RetriesUsed => retries_are_used(alloc, log, fault.object),
    }
}

/// The fault that an entry tells.
fn fault_in(entry: &Entry) -> Option<Fault> {
    match entry {
        Entry::Faulted { fault, .. } => Some(*fault),
        Entry::Resolved { fault, .. } => Some(*fault),
        _ => None,
    }
}

/// Whether each fault of the log has its cause before it.
pub fn all_have_causes(alloc: Global, log: &[Entry]) -> Result<bool, AllocError> {
    for place in 0..log.len() {
        if let Some(fault) = fault_in(&log[place]) {
            if !has_cause(alloc, &log[..place], fault)? {
                return Ok(false);
            }
        }
    }
    Ok(true)
}
