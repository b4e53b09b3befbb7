// What keeps a worker's attempt from going on.

ghost use Rattle.std.specs.Prelude.{◌≡◌};
ghost use Rattle.waits.specs.Links.{waiting_link, phase_link, run_link, worker_link};

use crate::link::Link;
use crate::lookups::{holders_at, is_one, worker_at};
use ids::{AttemptId, NodeId, ObjectId, WorkerId};
use protocol_data::{ClusterState, Execution, Fetching, Phase};

fn waiting_link(
    worker: WorkerId,
    attempt: AttemptId,
    object: ObjectId,
    fetching: &Option<Fetching>,
) -> Link
    ensures { result ≡ waiting_link worker attempt object fetching.now }
{
    match fetching {
        None => Link::WaitsFor(worker, attempt, object),
        Some(fetching) => Link::FetchesFor(worker, attempt, object, fetching.node),
    }
}

fn phase_link(
    whole: &ClusterState,
    worker: WorkerId,
    node: NodeId,
    attempt: AttemptId,
    phase: &Phase,
) -> Link
    ensures { result ≡ phase_link whole.now worker node attempt phase.now }
{
    match phase {
        Phase::Ready => {
            if is_one(holders_at(whole, node), worker) {
                return Link::CanGoOn(worker);
            }
            Link::LacksSlot(worker, node)
        }
        Phase::Out(job) => Link::HasJob(worker, *job),
        Phase::Waits(object, fetching) => waiting_link(worker, attempt, *object, fetching),
        Phase::HasEnded(_) => Link::HasStopped(worker, attempt),
        Phase::HasFaulted(_) => Link::HasStopped(worker, attempt),
    }
}

fn run_link(whole: &ClusterState, worker: WorkerId, node: NodeId, run: &Option<Execution>) -> Link
    ensures { result ≡ run_link whole.now worker node run.now }
{
    match run {
        None => Link::Resting(worker),
        Some(run) => phase_link(whole, worker, node, run.attempt, &run.phase),
    }
}

/// What keeps the worker's attempt from going on.
#[tactic(auto, unfolding(crate::specs::Links::worker_link))]
pub fn worker_link(whole: &ClusterState, worker: WorkerId) -> Link
    ensures { result ≡ worker_link whole.now worker }
{
    let Some(found) = worker_at(whole, worker) else {
        return Link::IsDead(worker);
    };
    if found.is_live {
        return run_link(whole, worker, found.node, &found.run);
    }
    Link::IsDead(worker)
}
