// The events of a run, and their texts in event files.

use held::ids::{NodeId, ObjectId, WorkerId};
use std::fmt;

/// What can happen to a run. Jobs and messages are numbered from 1. Its text is that of event files, such as `claim 2` or
/// `lose 1 o1.3`.
#[derive(Clone, Copy, PartialEq, Eq, Debug)]
pub enum Event {
    /// The worker's next part of its task is given out as a job.
    Claim(WorkerId),
    /// The outcome of the job is applied.
    Commit(u64),
    /// The message reaches its receiver; to a dead one nothing happens.
    Deliver(u64),
    /// The worker sends again what it waits for.
    Tick(WorkerId),
    /// The worker is told that another is dead.
    Notice { worker: WorkerId, dead: WorkerId },
    /// The worker is told that a node is dead.
    NoticeNode { worker: WorkerId, dead: NodeId },
    /// The node's secondary copies of the object go.
    Evict { node: NodeId, object: ObjectId },
    /// Every copy of the object at the node goes.
    Lose { node: NodeId, object: ObjectId },
    /// The worker dies.
    Kill(WorkerId),
    /// The node and all its workers die.
    KillNode(NodeId),
    /// A node with the next number comes.
    Join,
}

impl fmt::Display for Event {
    ghost use Rattle.std.specs.Prelude.{Some};
    ghost use Rattle.log_entries.specs.Texts.{event_text};

    ghost output = { λ e. Some (event_text e) };

    fn fmt<W: fmt::Write>(&self, f: &mut fmt::Formatter<W>) -> fmt::Result {
        match self {
            Event::Claim(worker) => {
                let worker = worker.0;
                write!(f, "claim {worker}")
            }
            Event::Commit(job) => write!(f, "commit {job}"),
            Event::Deliver(message) => write!(f, "deliver {message}"),
            Event::Tick(worker) => {
                let worker = worker.0;
                write!(f, "tick {worker}")
            }
            Event::Notice { worker, dead } => {
                let worker = worker.0;
                let dead = dead.0;
                write!(f, "notice {worker} {dead}")
            }
            Event::NoticeNode { worker, dead } => {
                let worker = worker.0;
                let dead = dead.0;
                write!(f, "notice-node {worker} {dead}")
            }
            Event::Evict { node, object } => {
                let node = node.0;
                write!(f, "evict {node} {object}")
            }
            Event::Lose { node, object } => {
                let node = node.0;
                write!(f, "lose {node} {object}")
            }
            Event::Kill(worker) => {
                let worker = worker.0;
                write!(f, "kill {worker}")
            }
            Event::KillNode(node) => {
                let node = node.0;
                write!(f, "kill-node {node}")
            }
            Event::Join => write!(f, "join"),
        }
    }
}
