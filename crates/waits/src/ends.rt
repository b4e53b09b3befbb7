// What keeps an attempt's owner from knowing how it stopped.

ghost use Rattle.std.specs.Prelude.{◌≡◌};
ghost use Rattle.waits.specs.Links.{end_link, hold_link};

use crate::link::Link;
use crate::lookups::{first_hold, is_live};
use crate::sent::sent;
use crate::topics::Topic;
use ids::{AttemptId, ObjectId, WorkerId};
use protocol_data::ClusterState;

/// What keeps the owner from knowing how the worker's attempt stopped.
#[tactic(auto, unfolding(crate::specs::Links::end_link))]
pub fn end_link(whole: &ClusterState, worker: WorkerId, attempt: AttemptId) -> Link
    ensures { result ≡ end_link whole.now worker attempt }
{
    if let Some(message) = sent(whole, &Topic::EndOf(attempt)) {
        return Link::UnderWay(message);
    }
    match first_hold(whole, worker) {
        None => Link::Resting(worker),
        Some(hold) => Link::HoldsBack(worker, hold.holder, hold.object),
    }
}

/// What keeps the worker from knowing that the first object holds the second.
#[tactic(auto, unfolding(crate::specs::Links::hold_link))]
pub fn hold_link(whole: &ClusterState, worker: WorkerId, holder: ObjectId, object: ObjectId) -> Link
    ensures { result ≡ hold_link whole.now worker holder object }
{
    if let Some(message) = sent(whole, &Topic::HoldAckOf(holder, object)) {
        return Link::UnderWay(message);
    }
    if !is_live(whole, object.owner) {
        return Link::Untold(worker, object.owner);
    }
    if let Some(message) = sent(whole, &Topic::HoldOf(holder, object)) {
        return Link::UnderWay(message);
    }
    Link::Resting(worker)
}
