// What the tables of a run say.

ghost use Rattle.std.specs.Prelude.{◌≡◌, MatchOption, None, Some};
ghost use Rattle.std.specs.List.{list_any};
ghost use Rattle.event_log.specs.Events.{from_one};
ghost use Rattle.waits.specs.Tables.{first_hold, first_hold_in, holders_at, is_ask_of, is_live, is_live_node, is_one, is_queued, node_at, runs, worker_at};

use ids::{AttemptId, NodeId, WorkerId};
use protocol_data::{AskKey, ClusterState, Envelope, Holding, Node, Object, Objects, Worker};
use sequence::Seq;

/// The item of that number, counted from 1.
#[tactic(auto, using(crate::proofs::Places::item_there, crate::proofs::Places::no_item))]
fn item_at<T>(items: &Seq<T>, number: u64) -> Option<&T>
    ensures { MatchOption result (from_one items.now number ≡ None) (λ x. from_one items.now number ≡ Some x.now) }
{
    if number == 0 {
        return None;
    }
    let place = (number - 1) as usize;
    if place >= items.len() {
        return None;
    }
    Some(items.get(place))
}

/// The worker of that number, counted from 1; none where it was never opened.
pub fn worker_at(whole: &ClusterState, worker: WorkerId) -> Option<&Worker>
    ensures { MatchOption result (worker_at whole.now worker ≡ None) (λ x. worker_at whole.now worker ≡ Some x.now) }
{
    match item_at(whole.workers.rows(), u64::from(worker.0)) {
        Some(found) => Some(&**found),
        None => None,
    }
}

/// The node of that number, counted from 1; none where it never came.
pub fn node_at(whole: &ClusterState, node: NodeId) -> Option<&Node>
    ensures { MatchOption result (node_at whole.now node ≡ None) (λ x. node_at whole.now node ≡ Some x.now) }
{
    match item_at(&whole.nodes, u64::from(node.0)) {
        Some(found) => Some(&**found),
        None => None,
    }
}

/// The message of that number.
pub fn envelope_at(whole: &ClusterState, number: u64) -> Option<&Envelope>
    ensures { MatchOption result (from_one whole.now.network number ≡ None) (λ x. from_one whole.now.network number ≡ Some x.now) }
{
    item_at(&whole.network, number)
}

/// The object of that serial, counted from 1; none for any other number.
#[tactic(auto, using(crate::proofs::Places::item_there, crate::proofs::Places::no_item))]
pub fn object_at(objects: &Objects, serial: u64) -> Option<&Object>
    ensures { MatchOption result (from_one objects.now serial ≡ None) (λ x. from_one objects.now serial ≡ Some x.now) }
{
    if serial == 0 {
        return None;
    }
    let place = (serial - 1) as usize;
    if place >= objects.len() {
        return None;
    }
    Some(objects.row(place))
}

/// Whether there is a worker of that number, and it lives.
pub fn is_live(whole: &ClusterState, worker: WorkerId) -> bool
    ensures { result ≡ is_live (worker_at whole.now worker) }
{
    match worker_at(whole, worker) {
        None => false,
        Some(found) => found.is_live,
    }
}

/// Whether there is a node of that number, and it lives.
pub fn is_live_node(whole: &ClusterState, node: NodeId) -> bool
    ensures { result ≡ is_live_node (node_at whole.now node) }
{
    match node_at(whole, node) {
        None => false,
        Some(found) => found.is_live,
    }
}

/// Whether the worker is one of these.
pub fn is_one(workers: &[WorkerId], worker: WorkerId) -> bool
    ensures { result ≡ is_one worker workers.now }
{
    workers.iter().any(|w| w.is(worker))
}

/// Who has a slot of the node.
pub fn holders_at(whole: &ClusterState, node: NodeId) -> &[WorkerId]
    ensures { result.now ≡ holders_at whole.now node }
{
    match node_at(whole, node) {
        None => &[],
        Some(found) => found.scheduler.slot_holders.as_slice(),
    }
}

fn is_ask_of(key: &AskKey, attempt: AttemptId, number: u32) -> bool
    ensures { result ≡ is_ask_of attempt number key.now }
{
    key.attempt.is(attempt) && key.hops == number
}

fn has_ask(queue: &[AskKey], attempt: AttemptId, number: u32) -> bool
    ensures { result ≡ list_any (is_ask_of attempt number) queue.now }
{
    for key in queue {
        if is_ask_of(key, attempt, number) {
            return true;
        }
    }
    false
}

/// Whether the ask waits at the node for a slot.
pub fn is_queued(whole: &ClusterState, attempt: AttemptId, number: u32, node: NodeId) -> bool
    ensures { result ≡ is_queued attempt number (node_at whole.now node) }
{
    match node_at(whole, node) {
        None => false,
        Some(found) => has_ask(found.scheduler.queue.as_slice(), attempt, number),
    }
}

/// Whether the attempt is the one that the worker runs, or ran last.
pub fn runs(whole: &ClusterState, worker: WorkerId, attempt: AttemptId) -> bool
    ensures { result ≡ runs whole.now worker attempt }
{
    let Some(found) = worker_at(whole, worker) else {
        return false;
    };
    let Some(run) = &found.run else {
        return false;
    };
    run.attempt.is(attempt)
}

fn first_hold_in(holds: &[Holding]) -> Option<Holding>
    ensures { result ≡ first_hold_in holds.now }
{
    if holds.is_empty() {
        return None;
    }
    Some(holds[0])
}

/// The first Hold of the worker's attempt that no HoldAck has answered.
pub fn first_hold(whole: &ClusterState, worker: WorkerId) -> Option<Holding>
    ensures { result ≡ first_hold whole.now worker }
{
    let Some(found) = worker_at(whole, worker) else {
        return None;
    };
    let Some(run) = &found.run else {
        return None;
    };
    first_hold_in(run.holds.as_slice())
}
