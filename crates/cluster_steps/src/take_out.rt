// Nodes and workers that are taken out.

ghost use Rattle.std.specs.Prelude.{◌≡◌, ◌<◌, ◌+◌, [], IfSome, IfNone, Some, None, length, slice_get, slice_set};
ghost use Rattle.contexts.specs.of_protocol.Cluster.{node_at, there, worker_at};

use contexts::protocol_data::{ClusterState, NodeContext, WorkerContext};
use ids::{NodeId, WorkerId};
use number_lists::place_of;
use sequence::Seq;
use std::mem;

/// Leaves no item, and what room there is. Most often there is none to let go of.
#[inline(always)]
fn empty<T: Drop>(items: &mut Seq<T>)
    ensures { items.new ≡ [] }
{
    if !items.is_empty() {
        items.items.clear();
    }
}

/// An event of the node of that number begins: nothing is opened or made yet.
#[inline(always)]
fn begin(whole: &ClusterState, number: NodeId, context: &mut NodeContext)
    ensures { context.new ≡ there whole.now number context.old.node }
{
    context.number = number;
    context.nodes = whole.nodes.len() as u64;
    context.workers = whole.workers.len() as u64;
    context.opened = 0;
    empty(&mut context.out.entries);
    empty(&mut context.out.envelopes);
}

/// The node at that place changes places with the one in the event.
#[inline(always)]
fn exchange_node(whole: &mut ClusterState, place: usize, context: &mut NodeContext)
    requires { place < length whole.old.nodes }
    ensures taken { slice_get whole.old.nodes place ≡ Some context.new.node }
    ensures there { context.new ≡ record context.old { node = context.new.node } }
    ensures left { whole.new ≡ record whole.old { nodes = slice_set whole.old.nodes place context.old.node } }
{
    let nodes = &mut whole.nodes;
    mem::swap(&mut nodes.items[place], &mut context.node);
}

/// The worker at that place changes places with the one in the event.
#[inline(always)]
fn exchange_worker(whole: &mut ClusterState, place: usize, here: &mut WorkerContext)
    requires { place < length whole.old.workers }
    ensures taken { slice_get whole.old.workers place ≡ Some here.new.worker }
    ensures here { here.new ≡ record here.old { worker = here.new.worker } }
    ensures left { whole.new ≡ record whole.old { workers = slice_set whole.old.workers place here.old.worker } }
{
    whole.workers.exchange(place, &mut here.worker);
}

/// The worker at that place and the node at the other change places with those in the event.
#[inline(always)]
pub fn exchange(whole: &mut ClusterState, place: usize, node_place: usize, here: &mut WorkerContext)
    requires worker { place < length whole.old.workers }
    requires node { node_place < length whole.old.nodes }
    ensures worker_taken { slice_get whole.old.workers place ≡ Some here.new.worker }
    ensures node_taken { slice_get whole.old.nodes node_place ≡ Some here.new.there.node }
    ensures here { here.new ≡ record here.old { worker = here.new.worker; there = record here.old.there { node = here.new.there.node } } }
    ensures left { whole.new ≡ record whole.old {
      workers = slice_set whole.old.workers place here.old.worker;
      nodes = slice_set whole.old.nodes node_place here.old.there.node;
    } }
{
    exchange_worker(whole, place, here);
    exchange_node(whole, node_place, &mut here.there);
}

/// The node at that place comes into an event; what was in the context, whatever it is, stands in its place meanwhile.
#[inline(always)]
pub fn enter_node(whole: &mut ClusterState, place: usize, number: NodeId, context: &mut NodeContext)
    requires { place < length whole.old.nodes }
    ensures taken { slice_get whole.old.nodes place ≡ Some context.new.node }
    ensures there { context.new ≡ there whole.old number context.new.node }
    ensures left { whole.new ≡ record whole.old { nodes = slice_set whole.old.nodes place context.old.node } }
{
    begin(whole, number, context);
    exchange_node(whole, place, context);
}

/// The worker at that place and its node come into an event; what was in the context, whatever it is, stands in their places meanwhile.
#[inline(always)]
pub fn enter(
    whole: &mut ClusterState,
    place: usize,
    node_place: usize,
    number: WorkerId,
    node: NodeId,
    here: &mut WorkerContext,
)
    requires worker { place < length whole.old.workers }
    requires node { node_place < length whole.old.nodes }
    ensures worker_taken { slice_get whole.old.workers place ≡ Some here.new.worker }
    ensures node_taken { slice_get whole.old.nodes node_place ≡ Some here.new.there.node }
    ensures here { here.new ≡ record { me = number; worker = here.new.worker; there = there whole.old node here.new.there.node } }
    ensures left { whole.new ≡ record whole.old {
      workers = slice_set whole.old.workers place here.old.worker;
      nodes = slice_set whole.old.nodes node_place here.old.there.node;
    } }
{
    here.me = number;
    begin(whole, node, &mut here.there);
    exchange(whole, place, node_place, here);
}

/// Nothing is logged.
pub fn log_nothing(context: &mut NodeContext)
    ensures { context.new ≡ record context.old { out = record context.old.out { entries = [] } } }
{
    empty(&mut context.out.entries);
}

/// Where the node of that number stands, counted from 0; none where there never was one.
#[tactic(auto, using(number_lists::proofs::Places::no_item))]
pub fn node_place(whole: &ClusterState, number: NodeId) -> Option<usize>
    ensures found { IfSome result (λ i. (number ≡ 1 + i) × (i < length whole.now.nodes)) }
    ensures none { IfNone result (node_at whole.now number ≡ None) }
{
    place_of(u64::from(number.0), whole.nodes.len())
}

/// Where the worker of that number stands, counted from 0; none where there never was one.
#[tactic(auto, using(number_lists::proofs::Places::no_item))]
pub fn worker_place(whole: &ClusterState, number: WorkerId) -> Option<usize>
    ensures found { IfSome result (λ i. (number ≡ 1 + i) × (i < length whole.now.workers)) }
    ensures none { IfNone result (worker_at whole.now number ≡ None) }
{
    place_of(u64::from(number.0), whole.workers.len())
}
