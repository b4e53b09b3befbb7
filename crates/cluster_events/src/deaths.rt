// Workers and nodes that die, and nodes that come.

ghost use Rattle.std.specs.Prelude.{◌≡◌, ◌<◌, ◌+◌, IfOk, OnOk, length, map};
ghost use Rattle.step_laws.specs.Limits.{entries_limited, whole_limited};
ghost use Rattle.cluster_events.specs.Told.{if_taken};
ghost use Rattle.protocol.specs.Events.{dead, dead_node, dies_with, joined, killed, node_killed};
ghost use Rattle.protocol.specs.Numbered.{changed_at};

use crate::counting::{fits, nothing, opened_by_death};
use boxed_value::Boxed;
use cluster_steps::{forget_at_node, log_nothing, new_node, node_place, worker_place};
use ids::{NodeId, WorkerId};
use protocol_data::{ClusterState, NodeContext, Worker, Workers};
use std::alloc::{AllocError, Global};
use std::mem;

/// Sets down that the worker of that number, which stands at the place before it, doesn't live any more.
fn mark_dead(whole: &mut ClusterState, place: usize, number: WorkerId)
    requires place_in { place < length whole.old.workers }
    requires number { number ≡ 1 + place }
    ensures { whole.new ≡ record whole.old { workers = changed_at whole.old.workers number dead } }
{
    whole.workers.kill(place);
}

/// The worker dies, and its node knows it.
#[inline(never)]
pub fn kill(
    alloc: Global,
    whole: &mut ClusterState,
    context: &mut NodeContext,
    number: WorkerId,
) -> Result<bool, AllocError>
    ensures whole { OnOk result (whole.new ≡ whole_limited whole.old (killed whole.old number)) }
    ensures entries { IfOk result (λ taken. if_taken taken context.new.out.entries ≡ entries_limited (killed whole.old number)) }
{
    let Some(place) = worker_place(whole, number) else {
        return Ok(nothing(whole, context, whole.made));
    };
    let node = whole.workers.get(place).node;
    let opened = opened_by_death(alloc, whole, node, number)?;
    if !fits(whole, opened, whole.made) {
        return Ok(false);
    }
    mark_dead(whole, place, number);
    forget_at_node(alloc, whole, context, node, number)?;
    Ok(true)
}

/// The worker dies where it is the node's.
fn die_with(worker: Boxed<Worker>, node: NodeId) -> Boxed<Worker>
    ensures { result ≡ dies_with node worker }
{
    let mut worker = worker;
    if worker.node.is(node) {
        worker.is_live = false;
    }
    worker
}

/// These workers, of which those of the node are dead.
fn all_die_with(alloc: Global, workers: Workers, node: NodeId) -> Result<Workers, AllocError>
    ensures { IfOk result (λ xs. xs ≡ map (dies_with node) workers) }
{
    let mut others = Workers::new(alloc);
    for worker in workers.into_rows().items {
        others.push(die_with(worker, node))?;
    }
    Ok(others)
}

/// Each worker on the node is dead from now on.
fn workers_die(alloc: Global, whole: &mut ClusterState, node: NodeId) -> Result<(), AllocError>
    ensures { OnOk result (whole.new ≡ record whole.old { workers = map (dies_with node) whole.old.workers }) }
{
    let workers = mem::replace(&mut whole.workers, Workers::new(alloc));
    whole.workers = all_die_with(alloc, workers, node)?;
    Ok(())
}

/// Sets down that the node of that number, which stands at the place before it, doesn't live any more.
fn mark_node_dead(whole: &mut ClusterState, place: usize, number: NodeId)
    requires place_in { place < length whole.old.nodes }
    requires number { number ≡ 1 + place }
    ensures { whole.new ≡ record whole.old { nodes = changed_at whole.old.nodes number dead_node } }
{
    let nodes = &mut whole.nodes;
    let node = &mut nodes.items[place];
    node.is_live = false;
}

/// The node of that number is dead, if there is one.
fn node_dies(whole: &mut ClusterState, number: NodeId)
    ensures { whole.new ≡ record whole.old { nodes = changed_at whole.old.nodes number dead_node } }
{
    let Some(place) = node_place(whole, number) else {
        return;
    };
    mark_node_dead(whole, place, number);
}

/// The node and its workers die.
#[inline(never)]
pub fn kill_node(
    alloc: Global,
    whole: &mut ClusterState,
    context: &mut NodeContext,
    number: NodeId,
) -> Result<bool, AllocError>
    ensures whole { OnOk result (whole.new ≡ whole_limited whole.old (node_killed whole.old number)) }
    ensures entries { IfOk result (λ taken. if_taken taken context.new.out.entries ≡ entries_limited (node_killed whole.old number)) }
{
    if !fits(whole, 0, whole.made) {
        return Ok(false);
    }
    node_dies(whole, number);
    workers_die(alloc, whole, number)?;
    log_nothing(context);
    Ok(true)
}

/// A node with the next number comes.
#[inline(never)]
pub fn join(
    alloc: Global,
    whole: &mut ClusterState,
    context: &mut NodeContext,
) -> Result<bool, AllocError>
    ensures whole { OnOk result (whole.new ≡ whole_limited whole.old (joined whole.old)) }
    ensures entries { IfOk result (λ taken. if_taken taken context.new.out.entries ≡ entries_limited (joined whole.old)) }
{
    if whole.nodes.len() >= 64 {
        return Ok(false);
    }
    if !fits(whole, 0, whole.made) {
        return Ok(false);
    }
    let slots = whole.slots;
    whole
        .nodes
        .push(Boxed::new(alloc, new_node(alloc, slots))?)?;
    log_nothing(context);
    Ok(true)
}
