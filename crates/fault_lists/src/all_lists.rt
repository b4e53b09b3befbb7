// All lists of a history with one fault more.

ghost use Rattle.std.specs.Prelude.{◌≡◌, ◌+◌, ◌<◌, ◌≤◌, ◌∷◌, [], IfOk, OnOk, drop, length, take};
ghost use Rattle.std.specs.List.{flat_map};
ghost use Rattle.fault_lists.specs.Firsts.{Adds, AddsBefore};
ghost use Rattle.fault_lists.specs.Lists.{alone, deaths, deaths_at, evictions, evictions_at, fault_lists, faults_at, losses, losses_at, node_deaths, node_deaths_at, told};

use crate::choice::FaultChoice;
use crate::first_lists::FirstLists;
use crate::log_events::is_refused_at;
use crate::seen::Seen;
use ids::{NodeId, ObjectId, WorkerId};
use log_entries::{Entry, Event};
use std::alloc::{AllocError, Global};

/// The worker that main runs on.
const DRIVER: WorkerId = WorkerId(1);

fn add_alone(
    alloc: Global,
    lists: &mut FirstLists,
    place: usize,
    fault: Event,
) -> Result<(), AllocError>
    ensures { OnOk result (Adds lists.old (alone place fault ∷ []) lists.new) }
{
    lists.add(alloc, place, fault, None)
}

/// Adds the worker's death, of which main's worker is told.
fn add_told(
    alloc: Global,
    lists: &mut FirstLists,
    place: usize,
    worker: WorkerId,
) -> Result<(), AllocError>
    ensures { OnOk result (Adds lists.old (told place worker ∷ []) lists.new) }
{
    let notice = Event::Notice {
        worker: DRIVER,
        dead: worker,
    };
    lists.add(alloc, place, Event::Kill(worker), Some(notice))
}

/// The faults that are a worker's death.
fn add_deaths(
    alloc: Global,
    lists: &mut FirstLists,
    choice: FaultChoice,
    place: usize,
    worker: WorkerId,
) -> Result<(), AllocError>
    ensures { OnOk result (Adds lists.old (deaths choice place worker) lists.new) }
{
    if choice.kill {
        add_alone(alloc, lists, place, Event::Kill(worker))?;
    }
    if choice.told_kill {
        add_told(alloc, lists, place, worker)?;
    }
    Ok(())
}

fn add_all_deaths(
    alloc: Global,
    lists: &mut FirstLists,
    choice: FaultChoice,
    place: usize,
    workers: &[WorkerId],
) -> Result<(), AllocError>
    ensures { OnOk result (Adds lists.old (flat_map (deaths choice place) workers.now) lists.new) }
{
    for worker in workers {
        add_deaths(alloc, lists, choice, place, *worker)?;
    }
    Ok(())
}

fn add_node_deaths(
    alloc: Global,
    lists: &mut FirstLists,
    place: usize,
    nodes: u32,
) -> Result<(), AllocError>
    ensures { OnOk result (Adds lists.old (node_deaths place nodes) lists.new) }
{
    for number in 0..nodes {
        add_alone(alloc, lists, place, Event::KillNode(NodeId(number + 1)))?;
    }
    Ok(())
}

/// The loss of an object's copies, at each node.
fn add_losses(
    alloc: Global,
    lists: &mut FirstLists,
    place: usize,
    nodes: u32,
    object: ObjectId,
) -> Result<(), AllocError>
    ensures { OnOk result (Adds lists.old (losses place object nodes) lists.new) }
{
    for number in 0..nodes {
        let node = NodeId(number + 1);
        add_alone(alloc, lists, place, Event::Lose { node, object })?;
    }
    Ok(())
}

/// The loss of an object's secondary copies, at each node.
fn add_evictions(
    alloc: Global,
    lists: &mut FirstLists,
    place: usize,
    nodes: u32,
    object: ObjectId,
) -> Result<(), AllocError>
    ensures { OnOk result (Adds lists.old (evictions place object nodes) lists.new) }
{
    for number in 0..nodes {
        let node = NodeId(number + 1);
        add_alone(alloc, lists, place, Event::Evict { node, object })?;
    }
    Ok(())
}

fn add_all_losses(
    alloc: Global,
    lists: &mut FirstLists,
    place: usize,
    nodes: u32,
    objects: &[ObjectId],
) -> Result<(), AllocError>
    ensures { OnOk result (Adds lists.old (flat_map (λ o. losses place o nodes) objects.now) lists.new) }
{
    for object in objects {
        add_losses(alloc, lists, place, nodes, *object)?;
    }
    Ok(())
}

fn add_all_evictions(
    alloc: Global,
    lists: &mut FirstLists,
    place: usize,
    nodes: u32,
    objects: &[ObjectId],
) -> Result<(), AllocError>
    ensures { OnOk result (Adds lists.old (flat_map (λ o. evictions place o nodes) objects.now) lists.new) }
{
    for object in objects {
        add_evictions(alloc, lists, place, nodes, *object)?;
    }
    Ok(())
}

/// The deaths of workers.
#[tactic(auto, unfolding(crate::specs::Lists::deaths_at))]
fn add_deaths_at(
    alloc: Global,
    lists: &mut FirstLists,
    choice: FaultChoice,
    place: usize,
    seen: &Seen,
) -> Result<(), AllocError>
    ensures { OnOk result (Adds lists.old (deaths_at choice place seen.now) lists.new) }
{
    add_all_deaths(alloc, lists, choice, place, seen.workers.as_slice())
}

/// The deaths of nodes, if they are chosen.
#[tactic(auto, unfolding(crate::specs::Lists::node_deaths_at))]
fn add_node_deaths_at(
    alloc: Global,
    lists: &mut FirstLists,
    choice: FaultChoice,
    place: usize,
    seen: &Seen,
) -> Result<(), AllocError>
    ensures { OnOk result (Adds lists.old (node_deaths_at choice place seen.now) lists.new) }
{
    if !choice.kill_node {
        return Ok(());
    }
    add_node_deaths(alloc, lists, place, seen.nodes)
}

/// The losses of copies, if they are chosen.
#[tactic(auto, unfolding(crate::specs::Lists::losses_at))]
fn add_losses_at(
    alloc: Global,
    lists: &mut FirstLists,
    choice: FaultChoice,
    place: usize,
    seen: &Seen,
) -> Result<(), AllocError>
    ensures { OnOk result (Adds lists.old (losses_at choice place seen.now) lists.new) }
{
    if !choice.lose {
        return Ok(());
    }
    add_all_losses(alloc, lists, place, seen.nodes, seen.objects.as_slice())
}

/// The losses of secondary copies, if they are chosen.
#[tactic(auto, unfolding(crate::specs::Lists::evictions_at))]
fn add_evictions_at(
    alloc: Global,
    lists: &mut FirstLists,
    choice: FaultChoice,
    place: usize,
    seen: &Seen,
) -> Result<(), AllocError>
    ensures { OnOk result (Adds lists.old (evictions_at choice place seen.now) lists.new) }
{
    if !choice.evict {
        return Ok(());
    }
    add_all_evictions(alloc, lists, place, seen.nodes, seen.objects.as_slice())
}

/// The faults that are tried at a place.
fn add_faults(
    alloc: Global,
    lists: &mut FirstLists,
    choice: FaultChoice,
    place: usize,
    seen: &Seen,
) -> Result<(), AllocError>
    ensures { OnOk result (Adds lists.old (faults_at choice place seen.now) lists.new) }
{
    add_deaths_at(alloc, lists, choice, place, seen)?;
    add_node_deaths_at(alloc, lists, choice, place, seen)?;
    add_losses_at(alloc, lists, choice, place, seen)?;
    add_evictions_at(alloc, lists, choice, place, seen)
}

/// The faults of the place before the log's entry, if that is an event, and what is seen behind it. Answers the place behind it.
fn add_before(
    alloc: Global,
    lists: &mut FirstLists,
    choice: FaultChoice,
    place: usize,
    seen: &mut Seen,
    log: &[Entry],
    k: usize,
) -> Result<usize, AllocError>
    requires there { k < length log.now }
    requires few { place ≤ k }
    ensures added { IfOk result (λ after. AddsBefore choice (drop k log.now) place seen.old lists.old (drop (k + 1) log.now) after seen.new lists.new) }
    ensures few { IfOk result (λ after. after ≤ k + 1) }
{
    let entry = &log[k];
    if let Entry::In { event, .. } = entry {
        add_faults(alloc, lists, choice, place, seen)?;
        seen.note_event(*event, is_refused_at(log, k + 1));
        return Ok(place + 1);
    }
    seen.note(entry)?;
    Ok(place)
}

/// The lists of the log's events with one fault more, of the kinds that are chosen, where the run began on so many nodes: at each place, before the
/// first event, between any two, and after the last, for each worker that was opened so far its death, alone and then with a notice to main's worker;
/// the death of each node; for each object that was born so far, as each result of a call is, the loss of its copies at each node, and of its
/// secondary copies at each. Places come one after the other, the first at first, and at a place workers, nodes and objects in the order in which they
/// came. The first are kept, `most` of them at most, and all are counted.
pub fn fault_lists(
    alloc: Global,
    log: &[Entry],
    nodes: u32,
    choice: FaultChoice,
    most: usize,
) -> Result<FirstLists, AllocError>
    ensures first { IfOk result (λ lists. lists.first ≡ take most (fault_lists choice nodes log.now)) }
    ensures count { IfOk result (λ lists. lists.count ≡ length (fault_lists choice nodes log.now)) }
{
    let mut lists = FirstLists::new(alloc, most);
    let mut seen = Seen::new(alloc, nodes);
    let mut place = 0;
    for k in 0..log.len() {
        place = add_before(alloc, &mut lists, choice, place, &mut seen, log, k)?;
    }
    add_faults(alloc, &mut lists, choice, place, &seen)?;
    Ok(lists)
}
