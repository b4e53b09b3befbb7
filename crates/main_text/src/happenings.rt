// When something happened last.

ghost use Rattle.std.specs.Prelude.{◌≡◌, ◌++◌, OnOk, string_bytes};
ghost use Rattle.std.specs.Option.{option_map};
ghost use Rattle.event_log.specs.Events.{from_one};
ghost use Rattle.why_text.specs.Moments.{moment_of};
ghost use Rattle.main_text.specs.Happenings.{happens, is_answer, is_beginning, is_claim, is_commit, is_given_to, is_node_death};
ghost use Rattle.main_text.specs.Happenings.{is_release, is_stop, later, latest, takes_place, when_last, when_some};

use ids::{AttemptId, NodeId, ObjectId, WorkerId};
use log_entries::{Entry, Event};
use log_words::is_refusal_at;
use protocol_data::{ClusterState, JobRecord};
use std::alloc::AllocError;
use why_text::{Moment, write_when};

/// What may happen in a run.
#[derive(Clone, Copy)]
pub enum Happening {
    /// The attempt begins on a worker.
    Begins(AttemptId),
    /// A get of the attempt is answered.
    Gets(AttemptId),
    /// The attempt ends, with a content or a fault.
    Stops(AttemptId),
    /// The object is released by its owner.
    Releases(ObjectId),
    /// The worker takes a job.
    Claims(WorkerId),
    /// A job of the worker is done.
    Commits(WorkerId),
    /// The node dies, with all its workers.
    NodeDies(NodeId),
}

/// Whether the job of that number was given to the worker.
fn is_given_to(jobs: &[JobRecord], worker: WorkerId, job: u64) -> bool
    ensures { result ≡ is_given_to worker (from_one jobs.now job) }
{
    if job == 0 {
        return false;
    }
    match jobs.get((job - 1) as usize) {
        None => false,
        Some(given) => given.worker.is(worker),
    }
}

fn is_beginning(attempt: AttemptId, entry: &Entry) -> bool
    ensures { result ≡ is_beginning attempt entry.now }
{
    match entry {
        Entry::Begun { attempt: begun, .. } => begun.is(attempt),
        _ => false,
    }
}

fn is_answer(attempt: AttemptId, entry: &Entry) -> bool
    ensures { result ≡ is_answer attempt entry.now }
{
    match entry {
        Entry::Got {
            attempt: answered,
            ..
        } => answered.is(attempt),
        _ => false,
    }
}

fn is_stop(attempt: AttemptId, entry: &Entry) -> bool
    ensures { result ≡ is_stop attempt entry.now }
{
    match entry {
        Entry::Ended { attempt: ended, .. } | Entry::Faulted { attempt: ended, .. } => {
            ended.is(attempt)
        }
        _ => false,
    }
}

fn is_release(object: ObjectId, entry: &Entry) -> bool
    ensures { result ≡ is_release object entry.now }
{
    match entry {
        Entry::Released(released) => released.is(object),
        _ => false,
    }
}

fn is_claim(worker: WorkerId, entry: &Entry) -> bool
    ensures { result ≡ is_claim worker entry.now }
{
    match entry {
        Entry::In {
            event: Event::Claim(claiming),
            ..
        } => claiming.is(worker),
        _ => false,
    }
}

fn is_commit(jobs: &[JobRecord], worker: WorkerId, entry: &Entry) -> bool
    ensures { result ≡ is_commit jobs.now worker entry.now }
{
    match entry {
        Entry::In {
            event: Event::Commit(job),
            ..
        } => is_given_to(jobs, worker, *job),
        _ => false,
    }
}

fn is_node_death(node: NodeId, entry: &Entry) -> bool
    ensures { result ≡ is_node_death node entry.now }
{
    match entry {
        Entry::In {
            event: Event::KillNode(killed),
            ..
        } => killed.is(node),
        _ => false,
    }
}

/// Whether the entry is what happens; `jobs` are those that were given out, by number.
fn happens(jobs: &[JobRecord], happening: &Happening, entry: &Entry) -> bool
    ensures { result ≡ happens jobs.now happening.now entry.now }
{
    match happening {
        Happening::Begins(attempt) => is_beginning(*attempt, entry),
        Happening::Gets(attempt) => is_answer(*attempt, entry),
        Happening::Stops(attempt) => is_stop(*attempt, entry),
        Happening::Releases(object) => is_release(*object, entry),
        Happening::Claims(worker) => is_claim(*worker, entry),
        Happening::Commits(worker) => is_commit(jobs, *worker, entry),
        Happening::NodeDies(node) => is_node_death(*node, entry),
    }
}

/// Whether it happens with the entry, where that isn't an event that is refused.
fn takes_place(jobs: &[JobRecord], happening: &Happening, entry: &Entry, is_refused: bool) -> bool
    ensures { result ≡ takes_place jobs.now happening.now entry.now is_refused }
{
    if is_refused {
        return false;
    }
    happens(jobs, happening, entry)
}

fn later(happened: bool, moment: &Moment, last: Option<Moment>) -> Option<Moment>
    ensures { option_map moment_of result ≡ later happened (moment_of moment.now) (option_map moment_of last) }
{
    if happened {
        return Some(*moment);
    }
    last
}

/// When it happened last; `jobs` are those that were given out. A refused event did nothing.
#[tactic(auto, unfolding(crate::specs::Happenings::latest))]
fn latest(
    jobs: &[JobRecord],
    lines: &[usize],
    log: &[Entry],
    happening: &Happening,
) -> Option<Moment>
    ensures { option_map moment_of result ≡ latest jobs.now lines.now log.now happening.now }
{
    let mut moment = Moment::first();
    let mut last = None;
    for (place, entry) in log.iter().enumerate() {
        moment = moment.after(lines, entry);
        let is_refused = is_refusal_at(log, place + 1);
        last = later(
            takes_place(jobs, happening, entry, is_refused),
            &moment,
            last,
        );
    }
    last
}

/// Writes when something happened, if it did.
pub fn write_when_some(text: &mut String, moment: Option<Moment>) -> Result<(), AllocError>
    ensures { OnOk result (string_bytes text.new ≡ string_bytes text.old ++ when_some (option_map moment_of moment)) }
{
    match moment {
        None => Ok(()),
        Some(moment) => write_when(text, &moment),
    }
}

/// Writes when it happened last, if it did.
#[tactic(auto, unfolding(crate::specs::Happenings::when_last))]
pub fn write_when_last(
    text: &mut String,
    whole: &ClusterState,
    lines: &[usize],
    log: &[Entry],
    happening: &Happening,
) -> Result<(), AllocError>
    ensures { OnOk result
        (string_bytes text.new ≡ string_bytes text.old ++ when_last whole.now.jobs lines.now log.now happening.now) }
{
    let jobs = whole.jobs.as_slice();
    let moment = latest(jobs, lines, log, happening);
    write_when_some(text, moment)
}
