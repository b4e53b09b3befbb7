// What a worker does where it is told that another worker or a node is dead.

ghost use Rattle.std.specs.Prelude.{◌≡◌, OnErr, OnOk, Some, None, false};
ghost use Rattle.worker_steps.specs.of_contexts.Emptied.{nothing_here};
ghost use Rattle.protocol.specs.Sets.{has};
ghost use Rattle.protocol.specs.Tables.{knows_dead};
ghost use Rattle.protocol.specs.Notices.{hears_of_node, hears_of_worker, notice_node_step, notice_step};

use crate::node_deaths::{add_dead_node, lose_fetch, lose_locations, move_asks};
use crate::runs_on::break_where;
use crate::worker_deaths::{add_dead_worker, drop_holds, drop_stop, lose_owner};
use ids::{NodeId, WorkerId};
use number_lists::has_node;
use protocol_data::{Endpoint, WorkerContext};
use std::alloc::{AllocError, Global};
use worker_steps::{collect, knows_dead};

/// What a worker's death ends, and at last what the dead held.
fn hear_of_worker(
    alloc: Global,
    here: &mut WorkerContext,
    worker: WorkerId,
) -> Result<(), AllocError>
    ensures done { OnOk result (here.new ≡ hears_of_worker here.old worker) }
    ensures err { OnErr result (here.new ≡ nothing_here) }
{
    add_dead_worker(here, worker)?;
    break_where(alloc, here, &Endpoint::TheWorker(worker))?;
    lose_owner(alloc, here, worker)?;
    drop_holds(alloc, here, worker)?;
    drop_stop(here, worker)?;
    collect(alloc, here, worker)
}

/// The worker is told that the other is dead. What it knows already changes nothing.
pub fn notice_step(
    alloc: Global,
    here: &mut WorkerContext,
    worker: WorkerId,
) -> Result<(), AllocError>
    ensures done { OnOk result (here.new ≡ notice_step here.old worker) }
    ensures err { OnErr result (here.new ≡ nothing_here) }
    ensures asked { OnErr result (knows_dead here.old.worker worker ≡ false) }
{
    if knows_dead(&here.worker, worker) {
        return Ok(());
    }
    hear_of_worker(alloc, here, worker)
}

/// What a node's death ends.
fn hear_of_node(alloc: Global, here: &mut WorkerContext, node: NodeId) -> Result<(), AllocError>
    ensures done { OnOk result (here.new ≡ hears_of_node here.old node) }
    ensures err { OnErr result (here.new ≡ nothing_here) }
{
    add_dead_node(here, node)?;
    break_where(alloc, here, &Endpoint::TheNode(node))?;
    lose_locations(here, node);
    move_asks(here, node)?;
    lose_fetch(alloc, here, node)
}

/// The worker is told that the node is dead. What it knows already changes nothing.
pub fn notice_node_step(
    alloc: Global,
    here: &mut WorkerContext,
    node: NodeId,
) -> Result<(), AllocError>
    ensures done { OnOk result (here.new ≡ notice_node_step here.old node) }
    ensures err { OnErr result (here.new ≡ nothing_here) }
    ensures asked { OnErr result (has here.old.worker.dead_nodes node ≡ false) }
{
    if has_node(&here.worker.dead_nodes, node) {
        return Ok(());
    }
    hear_of_node(alloc, here, node)
}
