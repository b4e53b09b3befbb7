// Who has the slots of a node.

ghost use Rattle.std.specs.Prelude.{◌≡◌};
ghost use Rattle.waits.specs.Links.{first_holder_link, holder_link, holder_phase_link, kept_link, lent_link, slot_link};

use crate::link::Link;
use crate::lookups::{holders_at, worker_at};
use crate::sent::sent;
use crate::topics::Topic;
use ids::{NodeId, WorkerId};
use protocol_data::{ClusterState, Phase};

fn lent_link(whole: &ClusterState, worker: WorkerId) -> Option<Link>
    ensures { result ≡ lent_link whole.now worker }
{
    match sent(whole, &Topic::ForLent(worker)) {
        None => None,
        Some(message) => Some(Link::UnderWay(message)),
    }
}

fn holder_phase_link(whole: &ClusterState, worker: WorkerId, phase: &Phase) -> Option<Link>
    ensures { result ≡ holder_phase_link whole.now worker phase.now }
{
    match phase {
        Phase::Ready => Some(Link::CanGoOn(worker)),
        Phase::Out(job) => Some(Link::HasJob(worker, *job)),
        _ => lent_link(whole, worker),
    }
}

/// How a worker that has a slot comes to give it back; none where nothing for which it waits is under way.
#[tactic(auto, unfolding(crate::specs::Links::holder_link))]
fn holder_link(whole: &ClusterState, worker: WorkerId) -> Option<Link>
    ensures { result ≡ holder_link whole.now worker }
{
    let Some(found) = worker_at(whole, worker) else {
        return lent_link(whole, worker);
    };
    match &found.run {
        None => lent_link(whole, worker),
        Some(run) => holder_phase_link(whole, worker, &run.phase),
    }
}

/// Of the first that comes to it.
fn first_holder_link(whole: &ClusterState, slot_holders: &[WorkerId]) -> Option<Link>
    ensures { result ≡ first_holder_link whole.now slot_holders.now }
{
    for worker in slot_holders {
        if let Some(link) = holder_link(whole, *worker) {
            return Some(link);
        }
    }
    None
}

fn kept_link(worker: WorkerId, slot_holders: &[WorkerId]) -> Link
    ensures { result ≡ kept_link worker slot_holders.now }
{
    if slot_holders.is_empty() {
        return Link::Resting(worker);
    }
    Link::KeepsSlot(slot_holders[0])
}

/// What keeps the node from having a free slot, for the worker or for what it asked there.
#[tactic(auto, unfolding(crate::specs::Links::slot_link))]
pub fn slot_link(whole: &ClusterState, worker: WorkerId, node: NodeId) -> Link
    ensures { result ≡ slot_link whole.now worker node }
{
    let slot_holders = holders_at(whole, node);
    match first_holder_link(whole, slot_holders) {
        None => kept_link(worker, slot_holders),
        Some(link) => link,
    }
}
