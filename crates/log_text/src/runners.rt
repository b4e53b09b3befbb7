// The workers that ran attempts of an object's task, and their nodes.

ghost use Rattle.std.specs.Prelude.{◌≡◌, ◌++◌, ◌==◌, IfOk, OnOk};
ghost use Rattle.std.specs.List.{list_any};
ghost use Rattle.log_words.specs.of_event_log.Events.{from_one};
ghost use Rattle.log_words.specs.of_event_log.Words.{opened, opened_in, run_in, runs_of};
ghost use Rattle.log_words.specs.Index.{IsIndexOf};
ghost use Rattle.log_text.specs.Runners.{nodes_in, one, subject_of};
ghost use Rattle.log_text.specs.About.{seen_of};

use ids::ObjectId;
use log_entries::Entry;
use log_words::{BirthIndex, objects_at, task_of};
use std::alloc::{AllocError, Global};

/// An object, the one by which the attempts of its task are named, the objects of that task, and the numbers of the workers and nodes on which the
/// attempts ran.
#[derive(Drop)]
pub struct Subject {
    pub object: ObjectId,
    /// The object by which the attempts of its task are named: the task's first.
    pub task: ObjectId,
    /// The objects of that task, the first one first.
    pub results: Vec<ObjectId>,
    /// The numbers of the workers on which the attempts ran, in the order in which these began.
    pub workers: Vec<u32>,
    pub nodes: Vec<u32>,
}

fn add_run(workers: &mut Vec<u32>, object: ObjectId, entry: &Entry) -> Result<(), AllocError>
    ensures { OnOk result (workers.new.items ≡ workers.old.items ++ run_in object entry.now) }
{
    let Entry::Begun { attempt, worker } = entry else {
        return Ok(());
    };
    if attempt.object.is(object) {
        return Ok(workers.push(worker.0)?);
    }
    Ok(())
}

fn workers_of(alloc: Global, object: ObjectId, log: &[Entry]) -> Result<Vec<u32>, AllocError>
    ensures { IfOk result (λ workers. workers.items ≡ runs_of object log.now) }
{
    let mut workers = Vec::new(alloc);
    for entry in log {
        add_run(&mut workers, object, entry)?;
    }
    Ok(workers)
}

fn add_opened(nodes: &mut Vec<u32>, entry: &Entry) -> Result<(), AllocError>
    ensures { OnOk result (nodes.new.items ≡ nodes.old.items ++ opened_in entry.now) }
{
    match entry {
        Entry::Opened { node, .. } => Ok(nodes.push(node.0)?),
        _ => Ok(()),
    }
}

/// The numbers of the nodes of all workers, by the workers' numbers.
pub fn opened(alloc: Global, log: &[Entry]) -> Result<Vec<u32>, AllocError>
    ensures { IfOk result (λ nodes. nodes.items ≡ opened log.now) }
{
    let mut nodes = Vec::new(alloc);
    for entry in log {
        add_opened(&mut nodes, entry)?;
    }
    Ok(nodes)
}

/// The node of the worker, where `nodes` are those of all workers.
pub fn node_of(nodes: &[u32], worker: u32) -> Option<u32>
    ensures { result ≡ from_one nodes.now worker }
{
    if worker == 0 {
        return None;
    }
    let place = (worker - 1) as usize;
    if place < nodes.len() {
        return Some(nodes[place]);
    }
    None
}

fn add_node(all: &mut Vec<u32>, node: Option<u32>) -> Result<(), AllocError>
    ensures { OnOk result (all.new.items ≡ all.old.items ++ one node) }
{
    match node {
        Some(node) => Ok(all.push(node)?),
        None => Ok(()),
    }
}

fn nodes_in(alloc: Global, nodes: &[u32], workers: &[u32]) -> Result<Vec<u32>, AllocError>
    ensures { IfOk result (λ all. all.items ≡ nodes_in nodes.now workers.now) }
{
    let mut all = Vec::new(alloc);
    for worker in workers {
        add_node(&mut all, node_of(nodes, *worker))?;
    }
    Ok(all)
}

impl Subject {
    /// The object with what the log, of which that is the index, says of its task.
    pub fn of(
        alloc: Global,
        index: &BirthIndex,
        log: &[Entry],
        object: ObjectId,
    ) -> Result<Subject, AllocError>
        ensures { IsIndexOf index.now log.now → IfOk result (λ subject. seen_of subject ≡ subject_of object log.now) }
    {
        let task = task_of(log, object);
        let results = objects_at(alloc, index, log, task)?;
        let workers = workers_of(alloc, task, log)?;
        let opened = opened(alloc, log)?;
        let nodes = nodes_in(alloc, &opened, &workers)?;
        Ok(Subject {
            object,
            task,
            results,
            workers,
            nodes,
        })
    }
}

/// Whether the number is one of these.
pub fn is_one(numbers: &[u32], number: u32) -> bool
    ensures { result ≡ list_any (λ n. n == number) numbers.now }
{
    numbers.iter().any(|n| *n == number)
}
