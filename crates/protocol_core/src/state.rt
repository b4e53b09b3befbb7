// A run's state, how it begins, and what an event adds to it.

ghost use Rattle.std.specs.Prelude.{◌≡◌, ◌++◌, ◌∷◌, [], IfOk, OnOk, OnErr, take, true};
ghost use Rattle.event_log.specs.Legal.{opening};
ghost use Rattle.protocol_core.specs.Clusters.{IsCluster};
ghost use Rattle.worker_steps.specs.of_contexts.Emptied.{nothing_left};
ghost use Rattle.protocol_core.specs.States.{first_state};
ghost use Rattle.protocol_core.specs.Views.{state_of};

use crate::cluster::Cluster;
use crate::opening::first_whole;
use cluster_steps::{blank_context, clear_cluster, clear_context};
use ids::{AttemptId, NodeId, ObjectId, WorkerId};
use log_entries::Entry;
use protocol_data::{ClusterState, WorkerContext};
use sequence::Seq;
use std::alloc::{AllocError, Global};

/// Workers, nodes and messages beside the log, how many nodes there were at first, and whether an event found no memory.
#[derive(Drop)]
pub struct State {
    /// Workers, nodes, messages and jobs.
    pub whole: ClusterState,
    /// Where a worker and its node are while they are in an event; what is left in it between events means nothing.
    pub here: WorkerContext,
    /// The entries so far, oldest first.
    pub log: Seq<Entry>,
    /// How many nodes there were at first, from 1 to 64.
    pub first_nodes: u8,
    /// Whether an event found no memory: no further one is taken then.
    pub is_halted: bool,
}

/// How many entries a log has room for from its start. A list that grows is copied, up to the size from which on the C library moves its pages instead, of
/// which it has none before they are written. This one is that large.
const ENTRIES: usize = 4096;

/// The log of a run that begins: worker 1 on node 1 runs main.
fn opening(alloc: Global) -> Result<Seq<Entry>, AllocError>
    ensures { IfOk result (λ log. log ≡ opening) }
{
    let mut log = Seq::new(alloc);
    log.items.reserve(ENTRIES)?;
    log.push(Entry::Opened {
        worker: WorkerId(1),
        node: NodeId(1),
    })?;
    let object = ObjectId {
        owner: WorkerId(1),
        serial: 0,
    };
    log.push(Entry::Begun {
        attempt: AttemptId { object, number: 0 },
        worker: WorkerId(1),
    })?;
    Ok(log)
}

/// Leaves so many items.
fn cut(log: &mut Seq<Entry>, count: usize)
    ensures { log.new ≡ take count log.old }
{
    log.items.truncate(count);
}

/// Adds an entry, and moves more of them behind it. On an error the log is as it was.
#[tactic(auto, using(crate::proofs::Adding::added, crate::proofs::Adding::cut_back))]
fn add_both(log: &mut Seq<Entry>, own: Entry, more: &mut Seq<Entry>) -> Result<(), AllocError>
    ensures ok { OnOk result (log.new ≡ log.old ++ own ∷ more.old) }
    ensures err { OnErr result (log.new ≡ log.old) }
{
    let count = log.len();
    log.push(own)?;
    if let Err(error) = log.append(more) {
        cut(log, count);
        return Err(error);
    }
    Ok(())
}

impl State {
    /// A run that begins, on these nodes.
    pub fn new(alloc: Global, cluster: Cluster) -> Result<State, AllocError>
        ensures { IfOk result (λ c. state_of c ≡ first_state cluster.nodes cluster.slots) }
    {
        let first_nodes = cluster.nodes();
        let log = opening(alloc)?;
        let whole = first_whole(alloc, first_nodes, cluster.slots())?;
        Ok(State {
            whole,
            here: blank_context(alloc)?,
            log,
            first_nodes,
            is_halted: false,
        })
    }

    /// Adds an event's own entry, and what comes of the event, which stands in the context, at the log's end; or leaves the log as it is. The list of
    /// what came keeps its room, for the next event.
    pub fn add(&mut self, own: Entry) -> Result<(), AllocError>
        ensures ok { OnOk result (self.new.log ≡ self.old.log ++ own ∷ self.old.here.there.out.entries) }
        ensures err { OnErr result (self.new.log ≡ self.old.log) }
        ensures whole { self.new.whole ≡ self.old.whole }
        ensures nodes { self.new.first_nodes ≡ self.old.first_nodes }
        ensures halted { self.new.is_halted ≡ self.old.is_halted }
    {
        add_both(&mut self.log, own, &mut self.here.there.out.entries)
    }

    /// An event found no memory. What it left of workers, nodes, messages and jobs, which may be half changed, is let go of.
    pub fn halt(&mut self)
        ensures left { self.new.whole ≡ nothing_left }
        ensures log { self.new.log ≡ self.old.log }
        ensures nodes { self.new.first_nodes ≡ self.old.first_nodes }
        ensures halted { self.new.is_halted ≡ true }
    {
        clear_cluster(&mut self.whole);
        clear_context(&mut self.here);
        self.is_halted = true;
    }
}
