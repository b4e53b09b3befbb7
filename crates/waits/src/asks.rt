// What keeps an attempt from beginning, or from going on.

ghost use Rattle.std.specs.Prelude.{◌≡◌};
ghost use Rattle.waits.specs.Links.{ask_link, attempt_link, begun_link, started_link, unasked_link};
ghost use Rattle.waits.specs.Tables.{runs};

use crate::link::Link;
use crate::lookups::{is_live, is_live_node, is_queued, runs};
use crate::sent::sent;
use crate::stops::worker_link;
use crate::topics::Topic;
use ids::{AttemptId, NodeId, WorkerId};
use protocol_data::ClusterState;

fn unasked_link(whole: &ClusterState, attempt: AttemptId, number: u32, node: NodeId) -> Link
    ensures { result ≡ unasked_link whole.now attempt number node }
{
    if let Some(message) = sent(whole, &Topic::AskFor(attempt, number)) {
        return Link::UnderWay(message);
    }
    if is_queued(whole, attempt, number, node) {
        return Link::LacksSlot(attempt.object.owner, node);
    }
    Link::Resting(attempt.object.owner)
}

/// What keeps the attempt from beginning, for which the ask of that number stands at the node.
#[tactic(auto, unfolding(crate::specs::Links::ask_link))]
pub fn ask_link(whole: &ClusterState, attempt: AttemptId, number: u32, node: NodeId) -> Link
    ensures { result ≡ ask_link whole.now attempt number node }
{
    if let Some(message) = sent(whole, &Topic::ReplyTo(attempt, number)) {
        return Link::UnderWay(message);
    }
    if is_live_node(whole, node) {
        return unasked_link(whole, attempt, number, node);
    }
    Link::NodeUntold(attempt.object.owner, node)
}

fn started_link(whole: &ClusterState, attempt: AttemptId, worker: WorkerId) -> Link
    ensures { result ≡ started_link whole.now attempt worker (runs whole.now worker attempt) }
{
    if runs(whole, worker, attempt) {
        return worker_link(whole, worker);
    }
    if let Some(message) = sent(whole, &Topic::PushOf(attempt)) {
        return Link::UnderWay(message);
    }
    Link::Resting(attempt.object.owner)
}

/// What keeps the attempt from going on, which was begun on the worker of that node.
#[tactic(auto, unfolding(crate::specs::Links::attempt_link))]
pub fn attempt_link(
    whole: &ClusterState,
    attempt: AttemptId,
    worker: WorkerId,
    node: NodeId,
) -> Link
    ensures { result ≡ attempt_link whole.now attempt worker node }
{
    if is_live(whole, worker) {
        return started_link(whole, attempt, worker);
    }
    if let Some(message) = sent(whole, &Topic::EndOf(attempt)) {
        return Link::UnderWay(message);
    }
    if is_live_node(whole, node) {
        return Link::Untold(attempt.object.owner, worker);
    }
    Link::NodeUntold(attempt.object.owner, node)
}
