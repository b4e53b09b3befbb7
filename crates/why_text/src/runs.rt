// An object, and what a log says of the attempts of its task.

ghost use Rattle.std.specs.Prelude.{◌≡◌, ◌++◌, IfOk, OnOk, map};
ghost use Rattle.std.specs.List.{list_any};
ghost use Rattle.event_log.specs.Words.{opened};
ghost use Rattle.log_words.specs.Index.{IsIndexOf};
ghost use Rattle.why_text.specs.Runs.{is_end_of, is_kill, is_killed_in, is_node, run_in, run_of, run_seen, runs_of, seen_of, subject_of};

use ids::{AttemptId, ObjectId};
use log_entries::{Entry, Event};
use log_text::{node_of, opened};
use log_words::{BirthIndex, is_refusal_at, objects_at};
use std::alloc::{AllocError, Global};

/// An attempt, the numbers of its worker and of the node of that, whether the log never says that it ended, and whether its worker was
/// killed for itself, not with its node.
#[derive(Clone, Copy)]
pub struct Run {
    pub attempt: AttemptId,
    pub worker: u32,
    /// The number of that worker's node; none where the worker was never opened.
    pub node: Option<u32>,
    /// Whether the log never says that it ended.
    pub is_open: bool,
    /// Whether its worker was killed for itself, not with its node.
    pub was_killed: bool,
}

/// An object, the one by which the attempts of its task are named, the objects of that task, the number of their owner's node, and the attempts.
#[derive(Drop)]
pub struct Subject {
    pub object: ObjectId,
    /// The object by which the attempts of its task are named: the task's first.
    pub task: ObjectId,
    /// The objects of that task, the first one first.
    pub results: Vec<ObjectId>,
    /// The number of their owner's node; none where that was never opened.
    pub home: Option<u32>,
    /// The attempts of the task, in the order in which they began.
    pub runs: Vec<Run>,
}

#[tactic(auto, unfolding(crate::specs::Runs::is_end_of))]
fn is_end_of(attempt: AttemptId, entry: &Entry) -> bool
    ensures { result ≡ is_end_of attempt entry.now }
{
    match entry {
        Entry::Ended { attempt: ended, .. } | Entry::Faulted { attempt: ended, .. } => {
            ended.is(attempt)
        }
        _ => false,
    }
}

/// Whether the log says that the attempt ended.
pub fn has_ended(log: &[Entry], attempt: AttemptId) -> bool
    ensures { result ≡ list_any (is_end_of attempt) log.now }
{
    for entry in log {
        if is_end_of(attempt, entry) {
            return true;
        }
    }
    false
}

#[tactic(auto, unfolding(crate::specs::Runs::is_kill))]
fn is_kill(worker: u32, entry: &Entry) -> bool
    ensures { result ≡ is_kill worker entry.now }
{
    match entry {
        Entry::In {
            event: Event::Kill(killed),
            ..
        } => killed.0 == worker,
        _ => false,
    }
}

/// Whether an event that kills the worker was taken.
pub fn is_killed_in(log: &[Entry], worker: u32) -> bool
    ensures { result ≡ is_killed_in worker log.now }
{
    for (place, entry) in log.iter().enumerate() {
        if is_kill(worker, entry) && !is_refusal_at(log, place + 1) {
            return true;
        }
    }
    false
}

fn run_of(log: &[Entry], nodes: &[u32], attempt: AttemptId, worker: u32) -> Run
    ensures { nodes.now ≡ opened log.now → run_seen result ≡ run_of log.now attempt worker }
{
    Run {
        attempt,
        worker,
        node: node_of(nodes, worker),
        is_open: !has_ended(log, attempt),
        was_killed: is_killed_in(log, worker),
    }
}

fn add_run(
    runs: &mut Vec<Run>,
    log: &[Entry],
    nodes: &[u32],
    task: ObjectId,
    entry: &Entry,
) -> Result<(), AllocError>
    ensures { nodes.now ≡ opened log.now → OnOk result
        (map run_seen runs.new.items ≡ map run_seen runs.old.items ++ run_in log.now task entry.now) }
{
    let Entry::Begun { attempt, worker } = entry else {
        return Ok(());
    };
    if attempt.object.is(task) {
        let run = run_of(log, nodes, *attempt, worker.0);
        return Ok(runs.push(run)?);
    }
    Ok(())
}

fn runs_of(
    alloc: Global,
    log: &[Entry],
    nodes: &[u32],
    task: ObjectId,
) -> Result<Vec<Run>, AllocError>
    ensures { nodes.now ≡ opened log.now → IfOk result (λ runs. map run_seen runs.items ≡ runs_of log.now task) }
{
    let mut runs = Vec::new(alloc);
    for entry in log {
        add_run(&mut runs, log, nodes, task, entry)?;
    }
    Ok(runs)
}

impl Subject {
    /// The object, whose task is named by that one, with what the log says of that.
    pub fn of(
        alloc: Global,
        index: &BirthIndex,
        log: &[Entry],
        object: ObjectId,
        task: ObjectId,
    ) -> Result<Subject, AllocError>
        ensures { IsIndexOf index.now log.now → IfOk result (λ subject. seen_of subject ≡ subject_of log.now object task) }
    {
        let nodes = opened(alloc, log)?;
        let home = node_of(&nodes, object.owner.0);
        let results = objects_at(alloc, index, log, task)?;
        let runs = runs_of(alloc, log, &nodes, task)?;
        Ok(Subject {
            object,
            task,
            results,
            home,
            runs,
        })
    }
}

/// Whether there is a node, and it has that number.
pub fn is_node(number: u32, node: Option<u32>) -> bool
    ensures { result ≡ is_node number node }
{
    match node {
        Some(node) => node == number,
        None => false,
    }
}
