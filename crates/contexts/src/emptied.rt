// What is left where a part of a step finds no memory: nothing, since half of the step may be done.

ghost use Rattle.std.specs.Prelude.{◌≡◌, [], OnErr, OnOk};
ghost use Rattle.protocol.specs.Nodes.{new_node, no_out};
ghost use Rattle.protocol.specs.Tables.{new_worker};
ghost use Rattle.contexts.specs.Emptied.{nothing_here, nothing_left, nothing_there};

use crate::fresh::{new_node, new_worker, no_out};
use ids::{NodeId, WorkerId};
use protocol_data::{ClusterState, NodeContext, WorkerContext, Workers};
use sequence::Seq;
use std::alloc::AllocError;

/// Lets go of all that a node has in the event.
#[inline(never)]
fn clear_there(there: &mut NodeContext)
    ensures { there.new ≡ nothing_there }
{
    let alloc = *there.out.entries.items.allocator();
    there.number = NodeId(0);
    there.nodes = 0;
    there.workers = 0;
    there.opened = 0;
    *there.node = new_node(alloc, 0);
    there.out = no_out(alloc);
}

/// Lets go of all that a worker and its node have in the event.
#[inline(never)]
pub fn clear_context(here: &mut WorkerContext)
    ensures { here.new ≡ nothing_here }
{
    let alloc = *here.there.out.entries.items.allocator();
    here.me = WorkerId(0);
    *here.worker = new_worker(alloc, NodeId(0));
    clear_there(&mut here.there);
}

/// Lets go of all workers, nodes, messages and jobs.
#[inline(never)]
pub fn clear_cluster(whole: &mut ClusterState)
    ensures { whole.new ≡ nothing_left }
{
    let alloc = *whole.network.items.allocator();
    whole.slots = 0;
    whole.nodes = Seq::new(alloc);
    whole.workers = Workers::new(alloc);
    whole.made = 0;
    whole.network = Seq::new(alloc);
    whole.delivered = Seq::new(alloc);
    whole.jobs = Seq::new(alloc);
}

/// What came of a part of a worker's step. Where it found no memory, nothing is left of the worker and its node.
#[inline(always)]
pub fn or_nothing<T: Drop>(
    came: Result<T, AllocError>,
    here: &mut WorkerContext,
) -> Result<T, AllocError>
    ensures told { result ≡ came }
    ensures done { OnOk result (here.new ≡ here.old) }
    ensures err { OnErr result (here.new ≡ nothing_here) }
{
    if came.is_err() {
        clear_context(here);
    }
    came
}

/// What came of a node's part in an event of the whole run. Where it found no memory, nothing is left of the run, nor of the node.
#[inline(always)]
pub fn or_nothing_there<T: Drop>(
    came: Result<T, AllocError>,
    whole: &mut ClusterState,
    there: &mut NodeContext,
) -> Result<T, AllocError>
    ensures told { result ≡ came }
    ensures whole { OnOk result (whole.new ≡ whole.old) }
    ensures there { OnOk result (there.new ≡ there.old) }
    ensures err { OnErr result ((whole.new ≡ nothing_left) × (there.new ≡ nothing_there)) }
{
    if came.is_err() {
        clear_cluster(whole);
        clear_there(there);
    }
    came
}

/// What came of an event of the whole run, or of a worker's part in it. Where it found no memory, nothing is left of the run, nor of the worker and its
/// node.
#[inline(always)]
pub fn or_nothing_left<T: Drop>(
    came: Result<T, AllocError>,
    whole: &mut ClusterState,
    here: &mut WorkerContext,
) -> Result<T, AllocError>
    ensures told { result ≡ came }
    ensures whole { OnOk result (whole.new ≡ whole.old) }
    ensures here { OnOk result (here.new ≡ here.old) }
    ensures err { OnErr result ((whole.new ≡ nothing_left) × (here.new ≡ nothing_here)) }
{
    if came.is_err() {
        clear_cluster(whole);
        clear_context(here);
    }
    came
}
