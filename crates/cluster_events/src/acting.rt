// Workers that do their part in an event.

ghost use Rattle.std.specs.Prelude.{◌≡◌, ◌<◌, ◌+◌, IfOk, OnOk, Some, length, slice_get, slice_set};
ghost use Rattle.step_laws.specs.Limits.{entries_within, whole_within};
ghost use Rattle.protocol.specs.Cluster.{after_worker, worker_does};
ghost use Rattle.protocol_data.specs.declared.cluster_state.ClusterState.{ClusterState};
ghost use Rattle.protocol_data.specs.declared.node.Node.{Node};
ghost use Rattle.protocol_data.specs.declared.tables.Worker.{Worker};
ghost use Rattle.worker_acts.specs.Acts.{act_step};
ghost use Rattle.cluster_events.specs.Kept.{IsKept, IsLeft, put_into};
ghost use Rattle.cluster_events.specs.Told.{if_taken};

use crate::counting::{fits, nothing};
use boxed_value::Boxed;
use cluster_steps::{enter, exchange, leave, log_nothing, node_place, worker_place};
use ids::{NodeId, WorkerId};
use protocol_data::{ClusterState, Node, Worker, WorkerContext};
use refusals::{is_ready_run, job_out};
use std::alloc::{AllocError, Global};
use worker_acts::{Act, take_part};

/// Whether the worker has something to claim or to commit, but for a slot that it may lack.
#[inline(always)]
fn may_go(worker: &Worker) -> bool {
    is_ready_run(&worker.run) || job_out(worker).is_some()
}

/// The worker of that number does its part in an event, in the context, in which the entries that this adds are left.
pub fn act(
    alloc: Global,
    whole: &mut ClusterState,
    here: &mut WorkerContext,
    number: WorkerId,
    what: &mut Act,
) -> Result<(), AllocError>
    ensures whole { OnOk result (whole.new ≡ (worker_does whole.old number (act_step whole.old.network what.old)).whole) }
    ensures entries { OnOk result (here.new.there.out.entries ≡ (worker_does whole.old number (act_step whole.old.network what.old)).out.entries) }
{
    let Some(place) = worker_place(whole, number) else {
        log_nothing(&mut here.there);
        return Ok(());
    };
    let node = whole.workers.get(place).node;
    let Some(node_place) = node_place(whole, node) else {
        log_nothing(&mut here.there);
        return Ok(());
    };
    enter(whole, place, node_place, number, node, here);
    let went = may_go(&here.worker);
    take_part(alloc, here, &whole.network, what)?;
    leave(alloc, whole, place, node_place, number, node, here, went)
}

/// A worker and its node as they were.
#[derive(Drop)]
pub struct Kept {
    /// The worker's tables before the event.
    pub worker: Boxed<Worker>,
    /// Its node's tables before the event.
    pub node: Boxed<Node>,
}

/// The worker and its node are kept.
fn keep(
    alloc: Global,
    whole: &ClusterState,
    place: usize,
    node_place: usize,
) -> Result<Kept, AllocError>
    requires worker { place < length whole.now.workers }
    requires node { node_place < length whole.now.nodes }
    ensures { IfOk result (λ kept. IsKept kept whole.now place node_place) }
{
    let worker = Boxed::new(alloc, whole.workers.get(place).copy(alloc)?)?;
    match whole.nodes.get(node_place).copy(alloc) {
        Ok(node) => Ok(Kept {
            worker,
            node: Boxed::new(alloc, node)?,
        }),
        Err(error) => {
            drop(worker);
            Err(error)
        }
    }
}

/// What was kept stands in its place again.
fn put_again(whole: &mut ClusterState, place: usize, node_place: usize, kept: Kept)
    requires worker { place < length whole.old.workers }
    requires node { node_place < length whole.old.nodes }
    ensures { whole.new ≡ record whole.old {
      workers = slice_set whole.old.workers place kept.worker;
      nodes = slice_set whole.old.nodes node_place kept.node;
    } }
{
    whole.workers.set(place, kept.worker);
    whole.nodes.set(node_place, kept.node);
}

/// The worker and its node are put back with what they made, or as they were where a limit would be passed.
fn put_within(
    alloc: Global,
    whole: &mut ClusterState,
    place: usize,
    node_place: usize,
    number: WorkerId,
    node: NodeId,
    here: &mut WorkerContext,
    kept: Kept,
    made: u64,
    went: bool,
) -> Result<bool, AllocError>
    requires place_in { place < length whole.old.workers }
    requires number { number ≡ 1 + place }
    requires node_place_in { node_place < length whole.old.nodes }
    requires node_number { node ≡ 1 + node_place }
    ensures whole { (c : ClusterState) (w : Worker) (n : Node) → IsLeft kept c place node_place w n whole.old
        → OnOk result (whole.new ≡ put_into made c whole.old number node here.old) }
    ensures entries { IfOk result (λ taken. if_taken taken here.new.there.out.entries ≡ entries_within made (after_worker whole.old number node here.old)) }
{
    if fits(whole, u64::from(here.there.opened), made) {
        drop(kept);
        leave(alloc, whole, place, node_place, number, node, here, went)?;
        return Ok(true);
    }
    exchange(whole, place, node_place, here);
    put_again(whole, place, node_place, kept);
    Ok(false)
}

/// The worker of that number does its part in an event, after which there are so many objects. It is told whether that was within the limits; the worker
/// and its node are kept meanwhile, and where a limit would be passed they stand again as they were.
#[inline(never)]
pub fn act_or_restore(
    alloc: Global,
    whole: &mut ClusterState,
    here: &mut WorkerContext,
    number: WorkerId,
    what: &mut Act,
    made: u64,
) -> Result<bool, AllocError>
    ensures whole { OnOk result (whole.new ≡ whole_within made whole.old (worker_does whole.old number (act_step whole.old.network what.old))) }
    ensures entries { IfOk result (λ taken. if_taken taken here.new.there.out.entries
        ≡ entries_within made (worker_does whole.old number (act_step whole.old.network what.old))) }
{
    let Some(place) = worker_place(whole, number) else {
        return Ok(nothing(whole, &mut here.there, made));
    };
    let node = whole.workers.get(place).node;
    let Some(node_place) = node_place(whole, node) else {
        return Ok(nothing(whole, &mut here.there, made));
    };
    let kept = keep(alloc, whole, place, node_place)?;
    enter(whole, place, node_place, number, node, here);
    let went = may_go(&here.worker);
    match take_part(alloc, here, &whole.network, what) {
        Ok(()) => put_within(
            alloc, whole, place, node_place, number, node, here, kept, made, went,
        ),
        Err(error) => {
            drop(kept);
            Err(error)
        }
    }
}
