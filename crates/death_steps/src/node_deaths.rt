// What the death of a node ends.

ghost use Rattle.std.specs.Prelude.{◌≡◌, ◌==◌, ◌+◌, ◌-◌, ◌++◌, ◌∷◌, [], IfOk, OnErr, OnOk, Some, None, map};
ghost use Rattle.worker_steps.specs.of_contexts.Emptied.{nothing_here};
ghost use Rattle.protocol.specs.Tables.{task_of, without_location};
ghost use Rattle.protocol.specs.Steps.{own_object};
ghost use Rattle.protocol.specs.Notices.{loses_fetch, loses_locations, moves_ask, moves_asks, with_dead_node};

use ids::{NodeId, ObjectId};
use number_lists::{object_at_number, remove_node};
use owner_steps::{ask_next, missing_reached};
use protocol_data::{Endpoint, ObjectSource, Objects, Phase, Progress, WorkerContext};
use std::alloc::{AllocError, Global};
use worker_steps::or_nothing;

/// The worker knows that the node is dead.
pub fn add_dead_node(here: &mut WorkerContext, node: NodeId) -> Result<(), AllocError>
    ensures done { OnOk result (here.new ≡ with_dead_node here.old node) }
    ensures err { OnErr result (here.new ≡ nothing_here) }
{
    or_nothing(here.worker.dead_nodes.push(node), here)
}

/// None of the objects has a copy at the node.
#[tactic(auto, using(crate::proofs::Losing::one_lost, crate::proofs::Losing::all_lost, crate::proofs::Losing::as_many))]
fn lose_locations_of(objects: &mut Objects, node: NodeId)
    ensures { objects.new ≡ map (without_location node) objects.old }
{
    let count = objects.len();
    for place in 0..count {
        let object = objects.row_mut(place);
        remove_node(&mut object.locations, node);
    }
}

/// No copy is known at the node any more.
pub fn lose_locations(here: &mut WorkerContext, node: NodeId)
    ensures { here.new ≡ loses_locations here.old node }
{
    lose_locations_of(&mut here.worker.objects, node);
}

/// The ask for that task, if it stands at the node, goes to the next node.
fn move_ask(here: &mut WorkerContext, node: NodeId, serial: u64) -> Result<(), AllocError>
    ensures done { OnOk result (here.new ≡ moves_ask here.old node serial (task_of (own_object here.old serial))) }
    ensures err { OnErr result (here.new ≡ nothing_here) }
{
    let Some(found) = object_at_number(&here.worker.objects, serial) else {
        return Ok(());
    };
    let ObjectSource::ByTask(task) = &found.source else {
        return Ok(());
    };
    let Progress::AskedAt(t, asked) = &task.progress else {
        return Ok(());
    };
    if !asked.is(node) {
        return Ok(());
    }
    let t = *t;
    let number = task.number;
    let owner = here.me;
    ask_next(here, ObjectId { owner, serial }, number, t, node)
}

/// The asks that stand at the node go to the next node.
#[tactic(auto, using(worker_steps::proofs::EachLaws::each_step, worker_steps::proofs::EachLaws::each_last))]
pub fn move_asks(here: &mut WorkerContext, node: NodeId) -> Result<(), AllocError>
    ensures done { OnOk result (here.new ≡ moves_asks here.old node) }
    ensures err { OnErr result (here.new ≡ nothing_here) }
{
    let count = here.worker.objects.len() as u64;
    for place in 0..count {
        move_ask(here, node, place + 1)?;
    }
    Ok(())
}

/// A Fetch under way to the node finds no copy.
pub fn lose_fetch(alloc: Global, here: &mut WorkerContext, node: NodeId) -> Result<(), AllocError>
    ensures done { OnOk result (here.new ≡ loses_fetch here.old node) }
    ensures err { OnErr result (here.new ≡ nothing_here) }
{
    let Some(run) = &here.worker.run else {
        return Ok(());
    };
    let Phase::Waits(object, fetching) = &run.phase else {
        return Ok(());
    };
    let object = *object;
    let Some(fetch) = fetching else {
        return Ok(());
    };
    if !fetch.node.is(node) {
        return Ok(());
    }
    let number = fetch.number;
    missing_reached(alloc, here, &Endpoint::TheNode(node), object, number, node)
}
