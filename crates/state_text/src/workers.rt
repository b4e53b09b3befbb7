// The lines of a worker: what it is for, what its attempt does, and which Holds it waits for.

ghost use Rattle.std.specs.Prelude.{◌≡◌, ◌++◌, ◌==◌, ◌<◌, MatchOption, None, OnOk, Some, string_bytes};
ghost use Rattle.std.specs.List.{list_any};
ghost use Rattle.log_words.specs.Index.{IsIndexOf};
ghost use Rattle.state_text.specs.Workers.{alive_head, any_run_text, ended_note, faulted_note, given_note, has_slot};
ghost use Rattle.state_text.specs.Workers.{hold_line, holds_text, is_idle, lease_at, lease_in, live_head, node_at};
ghost use Rattle.state_text.specs.Workers.{phase_text, ready_note, run_text, standing_text, worker_lines, wait_note, worker_text, workers_text};

use crate::standing::worker_count;
use ids::{AttemptId, NodeId, ObjectId, WorkerId};
use log_entries::Entry;
use log_text::write_named;
use log_words::BirthIndex;
use protocol_data::{ClusterState, Execution, Fetching, Holding, Leases, Node, Phase, Worker};
use std::alloc::AllocError;

/// The node of that number.
#[tactic(auto, using(crate::proofs::Below::item_there, crate::proofs::Below::no_item))]
fn node_at(whole: &ClusterState, node: NodeId) -> Option<&Node>
    ensures { MatchOption result (node_at whole.now node ≡ None) (λ x. node_at whole.now node ≡ Some x.now) }
{
    if node.0 == 0 {
        return None;
    }
    let place = (node.0 - 1) as usize;
    match whole.nodes.items.get(place) {
        Some(node) => Some(&**node),
        None => None,
    }
}

fn is_one(workers: &[WorkerId], worker: WorkerId) -> bool
    ensures { result ≡ list_any (λ v. v == worker) workers.now }
{
    workers.iter().any(|w| w.is(worker))
}

fn has_slot(whole: &ClusterState, node: NodeId, worker: WorkerId) -> bool
    ensures { result ≡ has_slot worker (node_at whole.now node) }
{
    match node_at(whole, node) {
        None => false,
        Some(found) => is_one(found.scheduler.slot_holders.as_slice(), worker),
    }
}

/// Whether the worker is one that the node may give.
fn is_idle(whole: &ClusterState, node: NodeId, worker: WorkerId) -> bool
    ensures { result ≡ is_idle worker (node_at whole.now node) }
{
    match node_at(whole, node) {
        None => false,
        Some(found) => is_one(found.scheduler.idle.rows().as_slice(), worker),
    }
}

fn lease_in(leases: &Leases, worker: WorkerId) -> Option<AttemptId>
    ensures { result ≡ lease_in worker leases.now }
{
    leases.attempt_of(worker)
}

/// The attempt to which the node gave the worker last.
fn lease_at(whole: &ClusterState, node: NodeId, worker: WorkerId) -> Option<AttemptId>
    ensures { result ≡ lease_at worker (node_at whole.now node) }
{
    match node_at(whole, node) {
        None => None,
        Some(found) => lease_in(&found.scheduler.leases, worker),
    }
}

fn write_given(
    text: &mut String,
    index: &BirthIndex,
    log: &[Entry],
    lease: Option<AttemptId>,
) -> Result<(), AllocError>
    ensures { IsIndexOf index.now log.now → OnOk result
        (string_bytes text.new ≡ string_bytes text.old ++ given_note log.now lease) }
{
    let Some(attempt) = lease else {
        return text.push_str(", given to nobody\n");
    };
    text.push_str(", given to ")?;
    write_named(text, index, log, attempt)?;
    text.push_str("\n")
}

/// Writes what the worker is for.
#[tactic(auto, unfolding(crate::specs::Workers::standing_text))]
fn write_standing(
    text: &mut String,
    index: &BirthIndex,
    log: &[Entry],
    whole: &ClusterState,
    worker: WorkerId,
    node: NodeId,
) -> Result<(), AllocError>
    ensures { IsIndexOf index.now log.now → OnOk result
        (string_bytes text.new ≡ string_bytes text.old ++ standing_text log.now whole.now worker node) }
{
    if worker.0 == 1 {
        return text.push_str(", driver\n");
    }
    if is_idle(whole, node, worker) {
        return text.push_str(", idle\n");
    }
    write_given(text, index, log, lease_at(whole, node, worker))
}

#[tactic(auto, unfolding(crate::specs::Workers::alive_head))]
fn write_alive(text: &mut String, worker: WorkerId, node: NodeId) -> Result<(), AllocError>
    ensures { OnOk result (string_bytes text.new ≡ string_bytes text.old ++ alive_head worker node) }
{
    write!(text, "{worker}: alive, on {node}")
}

fn write_head(
    text: &mut String,
    index: &BirthIndex,
    log: &[Entry],
    whole: &ClusterState,
    worker: WorkerId,
    node: NodeId,
) -> Result<(), AllocError>
    ensures { IsIndexOf index.now log.now → OnOk result
        (string_bytes text.new ≡ string_bytes text.old ++ live_head log.now whole.now worker node) }
{
    write_alive(text, worker, node)?;
    write_standing(text, index, log, whole, worker, node)?;
    Ok(())
}

fn write_ready(text: &mut String, node: NodeId, has_slot: bool) -> Result<(), AllocError>
    ensures { OnOk result (string_bytes text.new ≡ string_bytes text.old ++ ready_note node has_slot) }
{
    if has_slot {
        return text.push_str(" is ready\n");
    }
    write!(text, " waits for a slot of {node}\n")
}

fn write_wait(
    text: &mut String,
    object: ObjectId,
    fetching: &Option<Fetching>,
) -> Result<(), AllocError>
    ensures { OnOk result (string_bytes text.new ≡ string_bytes text.old ++ wait_note object fetching.now) }
{
    let Some(fetching) = fetching else {
        return write!(text, " waits for {object}\n");
    };
    let node = fetching.node;
    write!(text, " waits for {object}, asked {node} for a copy\n")
}

/// Writes that the attempt ended, and whether the owner's word of it has come.
fn write_ended(text: &mut String, is_acknowledged: bool) -> Result<(), AllocError>
    ensures { OnOk result (string_bytes text.new ≡ string_bytes text.old ++ ended_note is_acknowledged) }
{
    if is_acknowledged {
        return text.push_str(" ended\n");
    }
    text.push_str(" ended, not acknowledged\n")
}

/// Writes that the attempt ended with a fault, and whether the owner's word of it has come.
fn write_faulted(text: &mut String, is_acknowledged: bool) -> Result<(), AllocError>
    ensures { OnOk result (string_bytes text.new ≡ string_bytes text.old ++ faulted_note is_acknowledged) }
{
    if is_acknowledged {
        return text.push_str(" ended with a fault\n");
    }
    text.push_str(" ended with a fault, not acknowledged\n")
}

/// Writes what the attempt does next.
fn write_phase(
    text: &mut String,
    whole: &ClusterState,
    worker: WorkerId,
    node: NodeId,
    run: &Execution,
) -> Result<(), AllocError>
    ensures { OnOk result (string_bytes text.new ≡ string_bytes text.old ++ phase_text whole.now worker node run.now.is_acknowledged run.now.phase) }
{
    match &run.phase {
        Phase::Ready => write_ready(text, node, has_slot(whole, node, worker)),
        Phase::Out(job) => write!(text, " took job {job}\n"),
        Phase::Waits(object, fetching) => write_wait(text, *object, fetching),
        Phase::HasEnded(_) => write_ended(text, run.is_acknowledged),
        Phase::HasFaulted(_) => write_faulted(text, run.is_acknowledged),
    }
}

#[tactic(auto, unfolding(crate::specs::Workers::hold_line))]
fn write_hold(
    text: &mut String,
    worker: WorkerId,
    holder: ObjectId,
    object: ObjectId,
) -> Result<(), AllocError>
    ensures { OnOk result (string_bytes text.new ≡ string_bytes text.old ++ hold_line worker (record { holder = holder; object = object })) }
{
    let owner = object.owner;
    write!(
        text,
        "{worker}: waits until {owner} knows that {holder} has {object}\n"
    )
}

/// Writes which Holds of the attempt wait to be answered.
fn write_holds(text: &mut String, worker: WorkerId, holds: &[Holding]) -> Result<(), AllocError>
    ensures { OnOk result (string_bytes text.new ≡ string_bytes text.old ++ holds_text worker holds.now) }
{
    for hold in holds {
        write_hold(text, worker, hold.holder, hold.object)?;
    }
    Ok(())
}

/// Writes how far the worker's attempt is.
#[tactic(auto, unfolding(crate::specs::Workers::run_text))]
fn write_run(
    text: &mut String,
    index: &BirthIndex,
    log: &[Entry],
    whole: &ClusterState,
    worker: WorkerId,
    node: NodeId,
    run: &Execution,
) -> Result<(), AllocError>
    ensures { IsIndexOf index.now log.now → OnOk result
        (string_bytes text.new ≡ string_bytes text.old ++ run_text log.now whole.now worker node run.now) }
{
    write!(text, "{worker}: ")?;
    write_named(text, index, log, run.attempt)?;
    write_phase(text, whole, worker, node, run)?;
    write_holds(text, worker, run.holds.as_slice())
}

fn write_run_if_any(
    text: &mut String,
    index: &BirthIndex,
    log: &[Entry],
    whole: &ClusterState,
    worker: WorkerId,
    found: &Worker,
) -> Result<(), AllocError>
    ensures { IsIndexOf index.now log.now → OnOk result
        (string_bytes text.new ≡ string_bytes text.old ++ any_run_text log.now whole.now worker found.now.node found.now.run) }
{
    let Some(run) = &found.run else {
        return Ok(());
    };
    write_run(text, index, log, whole, worker, found.node, run)
}

fn write_worker(
    text: &mut String,
    index: &BirthIndex,
    log: &[Entry],
    whole: &ClusterState,
    worker: WorkerId,
    found: &Worker,
) -> Result<(), AllocError>
    ensures { IsIndexOf index.now log.now → OnOk result
        (string_bytes text.new ≡ string_bytes text.old ++ worker_text log.now whole.now worker found.now) }
{
    let node = found.node;
    if !found.is_live {
        return write!(text, "{worker}: dead, on {node}\n");
    }
    write_head(text, index, log, whole, worker, node)?;
    write_run_if_any(text, index, log, whole, worker, found)
}

/// Writes what is said of the worker at that place.
#[tactic(auto, unfolding(crate::specs::Workers::worker_lines))]
fn write_worker_at(
    text: &mut String,
    index: &BirthIndex,
    log: &[Entry],
    whole: &ClusterState,
    place: u32,
) -> Result<(), AllocError>
    requires { place < 4294967295 }
    ensures { IsIndexOf index.now log.now → OnOk result
        (string_bytes text.new ≡ string_bytes text.old ++ worker_lines log.now whole.now place) }
{
    let Some(found) = whole.workers.rows().items.get(place as usize) else {
        return Ok(());
    };
    write_worker(text, index, log, whole, WorkerId(place + 1), found)
}

/// Writes what is said of each worker.
#[tactic(auto, unfolding(crate::specs::Workers::workers_text))]
pub fn write_workers(
    text: &mut String,
    index: &BirthIndex,
    log: &[Entry],
    whole: &ClusterState,
) -> Result<(), AllocError>
    ensures { IsIndexOf index.now log.now → OnOk result
        (string_bytes text.new ≡ string_bytes text.old ++ workers_text log.now whole.now) }
{
    for place in 0..worker_count(whole) {
        write_worker_at(text, index, log, whole, place)?;
    }
    Ok(())
}
