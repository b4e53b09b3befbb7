// Who lives, and who is ready.

ghost use Rattle.std.specs.Prelude.{◌≡◌};
ghost use Rattle.protocol.specs.Events.{is_live_node, is_live_worker};
ghost use Rattle.protocol.specs.Refusals.{has_slot, is_dead_node, is_dead_worker, is_ready, is_ready_run};
ghost use Rattle.protocol.specs.Cluster.{node_at, worker_at};

use ids::{NodeId, WorkerId};
use number_lists::{has_worker, item_at_number};
use protocol_data::{ClusterState, Execution, Phase};

/// Whether a worker of that number was opened, and lives.
pub fn is_live_worker(whole: &ClusterState, number: WorkerId) -> bool
    ensures { result ≡ is_live_worker (worker_at whole.now number) }
{
    let Some(worker) = item_at_number(whole.workers.rows(), u64::from(number.0)) else {
        return false;
    };
    worker.is_live
}

/// Whether there was a worker of that number, which is dead.
pub fn is_dead_worker(whole: &ClusterState, number: WorkerId) -> bool
    ensures { result ≡ is_dead_worker (worker_at whole.now number) }
{
    let Some(worker) = item_at_number(whole.workers.rows(), u64::from(number.0)) else {
        return false;
    };
    !worker.is_live
}

/// Whether a node of that number came, and lives.
pub fn is_live_node(whole: &ClusterState, number: NodeId) -> bool
    ensures { result ≡ is_live_node (node_at whole.now number) }
{
    let Some(node) = item_at_number(&whole.nodes, u64::from(number.0)) else {
        return false;
    };
    node.is_live
}

/// Whether there was a node of that number, which is dead.
pub fn is_dead_node(whole: &ClusterState, number: NodeId) -> bool
    ensures { result ≡ is_dead_node (node_at whole.now number) }
{
    let Some(node) = item_at_number(&whole.nodes, u64::from(number.0)) else {
        return false;
    };
    !node.is_live
}

fn has_slot(whole: &ClusterState, number: WorkerId, node: NodeId) -> bool
    ensures { result ≡ has_slot number (node_at whole.now node) }
{
    let Some(found) = item_at_number(&whole.nodes, u64::from(node.0)) else {
        return false;
    };
    has_worker(&found.scheduler.slot_holders, number)
}

/// Whether the attempt may be given out.
pub fn is_ready_run(run: &Option<Execution>) -> bool
    ensures { result ≡ is_ready_run run.now }
{
    let Some(run) = run else {
        return false;
    };
    matches!(run.phase, Phase::Ready)
}

/// Whether the worker lives, and its attempt may be given out and has a slot.
pub fn is_ready(whole: &ClusterState, number: WorkerId) -> bool
    ensures { result ≡ is_ready whole.now number }
{
    let Some(worker) = item_at_number(whole.workers.rows(), u64::from(number.0)) else {
        return false;
    };
    worker.is_live && is_ready_run(&worker.run) && has_slot(whole, number, worker.node)
}
