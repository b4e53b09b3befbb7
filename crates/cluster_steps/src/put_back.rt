// Nodes and workers that are put back.

ghost use Rattle.std.specs.Prelude.{◌≡◌, ◌<◌, ◌+◌, ◌++◌, [], OnErr, OnOk, Some, length, slice_get, slice_set};
ghost use Rattle.contexts.specs.Emptied.{nothing_here, nothing_left};
ghost use Rattle.contexts.specs.of_protocol.Numbered.{changed_at};
ghost use Rattle.contexts.specs.of_protocol.Sets.{repeated};
ghost use Rattle.contexts.specs.of_protocol.Tables.{new_worker};
ghost use Rattle.contexts.specs.of_protocol.Cluster.{after_node, after_worker, undelivered};

use boxed_value::Boxed;
use contexts::protocol_data::{
    ClusterState, Envelope, NodeContext, Worker, WorkerContext, Workers,
};
use contexts::{new_worker, or_nothing_left};
use ids::{NodeId, WorkerId};
use sequence::Seq;
use std::alloc::{AllocError, Global};
use std::mem;

/// The workers that were opened on the node.
#[tactic(auto, using(crate::proofs::Blanks::one_more, crate::proofs::Blanks::none_left))]
fn add_workers(
    alloc: Global,
    workers: &mut Workers,
    count: u32,
    node: NodeId,
) -> Result<(), AllocError>
    ensures { OnOk result (workers.new ≡ workers.old ++ repeated count (new_worker node)) }
{
    for turn in 0..count {
        let _ = turn;
        workers.push(Boxed::new(alloc, new_worker(alloc, node))?)?;
    }
    Ok(())
}

/// None of these envelopes was delivered yet.
#[inline(always)]
fn add_undelivered(delivered: &mut Seq<bool>, envelopes: &Seq<Envelope>) -> Result<(), AllocError>
    ensures { OnOk result (delivered.new ≡ delivered.old ++ undelivered envelopes.now) }
{
    for _envelope in &envelopes.items {
        delivered.push(false)?;
    }
    Ok(())
}

/// The same workers, which most often are none.
#[inline(always)]
#[tactic(auto, using(crate::proofs::Blanks::none_opened))]
fn add_opened(
    alloc: Global,
    workers: &mut Workers,
    count: u32,
    node: NodeId,
) -> Result<(), AllocError>
    ensures { OnOk result (workers.new ≡ workers.old ++ repeated count (new_worker node)) }
{
    if count == 0 {
        return Ok(());
    }
    add_workers(alloc, workers, count, node)
}

/// The messages are sent, and not delivered yet. Often there are none.
#[inline(always)]
#[tactic(auto, using(crate::proofs::Blanks::none_sent, crate::proofs::Blanks::none_to_deliver))]
fn send(
    network: &mut Seq<Envelope>,
    delivered: &mut Seq<bool>,
    envelopes: &mut Seq<Envelope>,
) -> Result<(), AllocError>
    ensures network { OnOk result (network.new ≡ network.old ++ envelopes.old) }
    ensures delivered { OnOk result (delivered.new ≡ delivered.old ++ undelivered envelopes.old) }
{
    if envelopes.is_empty() {
        return Ok(());
    }
    add_undelivered(delivered, envelopes)?;
    network.append(envelopes)
}

/// The item changes places with the one that stands there.
#[inline(always)]
fn lay<T>(items: &mut Seq<T>, place: usize, item: &mut T)
    requires { place < length items.old }
    ensures { items.new ≡ slice_set items.old place item.old }
{
    mem::swap(&mut items.items[place], item);
}

/// The same, of the place of that number.
#[inline(always)]
fn put_over<T>(items: &mut Seq<T>, place: usize, number: u64, item: &mut T)
    requires place_in { place < length items.old }
    requires number { number ≡ 1 + place }
    ensures { items.new ≡ changed_at items.old number (λ _. item.old) }
{
    lay(items, place, item);
}

/// The worker changes places with the one of that number. If it went, it is looked at whether it goes on.
#[inline(always)]
fn put_worker_over(
    workers: &mut Workers,
    place: usize,
    number: u64,
    worker: &mut Boxed<Worker>,
    went: bool,
)
    requires place_in { place < length workers.old }
    requires number { number ≡ 1 + place }
    ensures { workers.new ≡ changed_at workers.old number (λ _. worker.old) }
{
    workers.exchange(place, worker);
    if went {
        workers.settle(place);
    }
}

/// The node at that place is put back, with what it made, but for the entries: these are left in the context, in which what stood in the node's place
/// is again.
#[inline(always)]
pub fn leave_node(
    alloc: Global,
    whole: &mut ClusterState,
    place: usize,
    number: NodeId,
    context: &mut NodeContext,
) -> Result<(), AllocError>
    requires place_in { place < length whole.old.nodes }
    requires number { number ≡ 1 + place }
    ensures whole { OnOk result (whole.new ≡ (after_node whole.old number context.old).whole) }
    ensures entries { OnOk result (context.new.out.entries ≡ (after_node whole.old number context.old).out.entries) }
{
    put_over(
        &mut whole.nodes,
        place,
        u64::from(number.0),
        &mut context.node,
    );
    add_opened(alloc, &mut whole.workers, context.opened, number)?;
    send(
        &mut whole.network,
        &mut whole.delivered,
        &mut context.out.envelopes,
    )
}

/// The worker and its node are put back, with what they made, but for the entries: these are left in the context, in which what stood in their places
/// is again. Whether the worker had something to claim or to commit as it came (`went`) is for the index of those that have, and changes nothing else.
/// Where this finds no memory, nothing is left of the run, nor of the worker and its node.
#[inline(always)]
pub fn leave(
    alloc: Global,
    whole: &mut ClusterState,
    place: usize,
    node_place: usize,
    number: WorkerId,
    node: NodeId,
    here: &mut WorkerContext,
    went: bool,
) -> Result<(), AllocError>
    requires place_in { place < length whole.old.workers }
    requires number { number ≡ 1 + place }
    requires node_place_in { node_place < length whole.old.nodes }
    requires node_number { node ≡ 1 + node_place }
    ensures whole { OnOk result (whole.new ≡ (after_worker whole.old number node here.old).whole) }
    ensures entries { OnOk result (here.new.there.out.entries ≡ (after_worker whole.old number node here.old).out.entries) }
    ensures err { OnErr result ((whole.new ≡ nothing_left) × (here.new ≡ nothing_here)) }
{
    put_worker_over(
        &mut whole.workers,
        place,
        u64::from(number.0),
        &mut here.worker,
        went,
    );
    let came = leave_node(alloc, whole, node_place, node, &mut here.there);
    or_nothing_left(came, whole, here)
}
