// The first cause that an event has to be refused, kind by kind.

ghost use Rattle.log_entries.specs.declared.refusal.Refusal.TheVariants.{NoMessage, NoNode, NotDead, NotReady};
ghost use Rattle.std.specs.Prelude.{◌≡◌, is_some};
ghost use Rattle.protocol.specs.Refusals.{is_dead_node, is_dead_worker, is_ready, no_worker, or_refusal, refusal, store_refusal, unless};
ghost use Rattle.protocol.specs.Events.{is_live_node};
ghost use Rattle.protocol.specs.Numbered.{item_at};
ghost use Rattle.protocol.specs.Stores.{evict_refusal, lose_refusal};
ghost use Rattle.protocol.specs.Cluster.{node_at, worker_at};

use crate::jobs::commit_refusal;
use crate::living::{is_dead_node, is_dead_worker, is_live_node, is_live_worker, is_ready};
use ids::{NodeId, ObjectId, WorkerId};
use log_entries::{Event, Refusal};
use number_lists::item_at_number;
use object_store::{may_evict, may_lose};
use protocol_data::{ClusterState, CommitInput};

/// There is no such live worker.
fn no_worker(whole: &ClusterState, number: WorkerId) -> Option<Refusal>
    ensures { result ≡ no_worker whole.now number }
{
    if is_live_worker(whole, number) {
        return None;
    }
    Some(Refusal::NoWorker)
}

/// Why a claim is refused.
fn claim_refusal(whole: &ClusterState, number: WorkerId) -> Option<Refusal>
    ensures { result ≡ or_refusal (no_worker whole.now number) (unless (is_ready whole.now number) NotReady) }
{
    if !is_live_worker(whole, number) {
        return Some(Refusal::NoWorker);
    }
    if !is_ready(whole, number) {
        return Some(Refusal::NotReady);
    }
    None
}

/// Why an eviction is refused.
fn evict_refusal(whole: &ClusterState, number: NodeId, object: ObjectId) -> Option<Refusal>
    ensures { result ≡ store_refusal (evict_refusal object) (node_at whole.now number) }
{
    let Some(node) = item_at_number(&whole.nodes, u64::from(number.0)) else {
        return Some(Refusal::NoNode);
    };
    if !node.is_live {
        return Some(Refusal::NoNode);
    }
    may_evict(&node.store, object)
}

/// Why a loss is refused.
fn lose_refusal(whole: &ClusterState, number: NodeId, object: ObjectId) -> Option<Refusal>
    ensures { result ≡ store_refusal (lose_refusal object) (node_at whole.now number) }
{
    let Some(node) = item_at_number(&whole.nodes, u64::from(number.0)) else {
        return Some(Refusal::NoNode);
    };
    if !node.is_live {
        return Some(Refusal::NoNode);
    }
    may_lose(&node.store, object)
}

/// Why a message isn't delivered.
fn deliver_refusal(whole: &ClusterState, number: u64) -> Option<Refusal>
    ensures { result ≡ unless (is_some (item_at whole.now.network number)) NoMessage }
{
    if item_at_number(&whole.network, number).is_none() {
        return Some(Refusal::NoMessage);
    }
    None
}

/// Why a worker isn't told that a worker is dead.
fn notice_refusal(whole: &ClusterState, number: WorkerId, dead: WorkerId) -> Option<Refusal>
    ensures { result ≡ or_refusal (no_worker whole.now number) (unless (is_dead_worker (worker_at whole.now dead)) NotDead) }
{
    if !is_live_worker(whole, number) {
        return Some(Refusal::NoWorker);
    }
    if !is_dead_worker(whole, dead) {
        return Some(Refusal::NotDead);
    }
    None
}

/// Why a worker isn't told that a node is dead.
fn notice_node_refusal(whole: &ClusterState, number: WorkerId, dead: NodeId) -> Option<Refusal>
    ensures { result ≡ or_refusal (no_worker whole.now number) (unless (is_dead_node (node_at whole.now dead)) NotDead) }
{
    if !is_live_worker(whole, number) {
        return Some(Refusal::NoWorker);
    }
    if !is_dead_node(whole, dead) {
        return Some(Refusal::NotDead);
    }
    None
}

/// Why a node isn't killed.
fn kill_node_refusal(whole: &ClusterState, number: NodeId) -> Option<Refusal>
    ensures { result ≡ unless (is_live_node (node_at whole.now number)) NoNode }
{
    if !is_live_node(whole, number) {
        return Some(Refusal::NoNode);
    }
    None
}

/// The number of the first reason for which the event is refused before it is tried, with what is handed in: 20 the copy is pinned, 21 there is
/// no copy, 30 no such live worker, 31 it isn't ready, 32 no such job, 33 the job's worker is dead, 34 no such message, 35 what the notice tells
/// of isn't dead, 36 no such live node.
pub fn refusal(whole: &ClusterState, event: &Event, handed: &CommitInput) -> Option<Refusal>
    ensures { result ≡ refusal whole.now event.now handed.now }
{
    match event {
        Event::Claim(worker) => claim_refusal(whole, *worker),
        Event::Commit(job) => commit_refusal(whole, *job, handed),
        Event::Deliver(message) => deliver_refusal(whole, *message),
        Event::Tick(worker) => no_worker(whole, *worker),
        Event::Notice { worker, dead } => notice_refusal(whole, *worker, *dead),
        Event::NoticeNode { worker, dead } => notice_node_refusal(whole, *worker, *dead),
        Event::Evict { node, object } => evict_refusal(whole, *node, *object),
        Event::Lose { node, object } => lose_refusal(whole, *node, *object),
        Event::Kill(worker) => no_worker(whole, *worker),
        Event::KillNode(node) => kill_node_refusal(whole, *node),
        Event::Join => None,
    }
}
