// The lines of a node: its slots, the workers on it, and who waits for a slot.

ghost use Rattle.std.specs.Prelude.{◌≡◌, ◌<◌, ◌^◌, ◌++◌, OnOk, string_bytes, ◌+◌};
ghost use Rattle.log_words.specs.Index.{IsIndexOf};
ghost use Rattle.state_text.specs.Nodes.{all_on, answered_line, answered_text, ask_line, asks_text};
ghost use Rattle.state_text.specs.Nodes.{live_text, node_head, node_lines, node_text, nodes_text};
ghost use Rattle.state_text.specs.Nodes.{on_node, taken_note, workers_line};

use crate::copies::write_copies;
use crate::standing::{worker_count, write_worker_words};
use ids::{AttemptId, WorkerId};
use log_entries::Entry;
use log_text::write_named;
use log_words::BirthIndex;
use protocol_data::{AskKey, ClusterState, Node};
use std::alloc::AllocError;

/// Writes who has the slots that are taken.
fn write_taken(text: &mut String, workers: &[WorkerId]) -> Result<(), AllocError>
    ensures { OnOk result (string_bytes text.new ≡ string_bytes text.old ++ taken_note workers.now) }
{
    if workers.is_empty() {
        return text.push_str("\n");
    }
    text.push_str(" by")?;
    write_worker_words(text, workers)?;
    text.push_str("\n")
}

fn write_head(text: &mut String, number: usize, node: &Node) -> Result<(), AllocError>
    ensures { OnOk result (string_bytes text.new ≡ string_bytes text.old ++ node_head number node.now) }
{
    if !node.is_live {
        return write!(text, "n{number}: dead\n");
    }
    let taken = node.scheduler.slot_holders.len();
    let slots = node.scheduler.slots;
    write!(text, "n{number}: alive, {taken} of {slots} slots taken")?;
    write_taken(text, node.scheduler.slot_holders.as_slice())
}

/// Writes the worker at that place, if it is on the node.
#[tactic(auto, unfolding(crate::specs::Nodes::on_node))]
fn write_on_node(
    text: &mut String,
    number: usize,
    whole: &ClusterState,
    place: u32,
) -> Result<(), AllocError>
    requires { place < 4294967295 }
    ensures { OnOk result (string_bytes text.new ≡ string_bytes text.old ++ on_node number whole.now place) }
{
    let Some(worker) = whole.workers.rows().items.get(place as usize) else {
        return Ok(());
    };
    if worker.node.0 as usize != number {
        return Ok(());
    }
    let worker = place + 1;
    write!(text, " w{worker}")
}

fn write_all_on(text: &mut String, number: usize, whole: &ClusterState) -> Result<(), AllocError>
    ensures { OnOk result (string_bytes text.new ≡ string_bytes text.old ++ all_on number whole.now) }
{
    for place in 0..worker_count(whole) {
        write_on_node(text, number, whole, place)?;
    }
    Ok(())
}

fn write_node_workers(
    text: &mut String,
    number: usize,
    whole: &ClusterState,
) -> Result<(), AllocError>
    ensures { OnOk result (string_bytes text.new ≡ string_bytes text.old ++ workers_line number whole.now) }
{
    write!(text, "n{number}: workers")?;
    write_all_on(text, number, whole)?;
    text.push_str("\n")
}

#[tactic(auto, unfolding(crate::specs::Nodes::answered_line))]
fn write_answered_line(text: &mut String, number: usize, worker: WorkerId) -> Result<(), AllocError>
    ensures { OnOk result (string_bytes text.new ≡ string_bytes text.old ++ answered_line number worker) }
{
    write!(text, "n{number}: {worker} waits for a slot\n")
}

/// Writes the workers whose attempts were answered, and which wait for a slot.
fn write_answered(text: &mut String, number: usize, workers: &[WorkerId]) -> Result<(), AllocError>
    ensures { OnOk result (string_bytes text.new ≡ string_bytes text.old ++ answered_text number workers.now) }
{
    for worker in workers {
        write_answered_line(text, number, *worker)?;
    }
    Ok(())
}

#[tactic(auto, unfolding(crate::specs::Nodes::ask_line))]
fn write_ask(
    text: &mut String,
    index: &BirthIndex,
    log: &[Entry],
    number: usize,
    attempt: AttemptId,
) -> Result<(), AllocError>
    ensures { IsIndexOf index.now log.now → OnOk result
        (string_bytes text.new ≡ string_bytes text.old ++ ask_line log.now number attempt) }
{
    write!(text, "n{number}: ")?;
    write_named(text, index, log, attempt)?;
    text.push_str(" waits for a slot\n")
}

/// Writes the asks that wait for a slot.
fn write_asks(
    text: &mut String,
    index: &BirthIndex,
    log: &[Entry],
    number: usize,
    queue: &[AskKey],
) -> Result<(), AllocError>
    ensures { IsIndexOf index.now log.now → OnOk result
        (string_bytes text.new ≡ string_bytes text.old ++ asks_text log.now number queue.now) }
{
    for key in queue {
        write_ask(text, index, log, number, key.attempt)?;
    }
    Ok(())
}

/// Writes what is said of a live node alone.
fn write_live(
    text: &mut String,
    index: &BirthIndex,
    log: &[Entry],
    whole: &ClusterState,
    number: usize,
    node: &Node,
) -> Result<(), AllocError>
    ensures { IsIndexOf index.now log.now → OnOk result
        (string_bytes text.new ≡ string_bytes text.old ++ live_text log.now whole.now number node.now) }
{
    if !node.is_live {
        return Ok(());
    }
    write_answered(text, number, node.scheduler.answered.as_slice())?;
    write_asks(text, index, log, number, node.scheduler.queue.as_slice())?;
    write_copies(text, number, &node.store, whole)
}

fn write_node(
    text: &mut String,
    index: &BirthIndex,
    log: &[Entry],
    whole: &ClusterState,
    number: usize,
    node: &Node,
) -> Result<(), AllocError>
    ensures { IsIndexOf index.now log.now → OnOk result
        (string_bytes text.new ≡ string_bytes text.old ++ node_text log.now whole.now number node.now) }
{
    write_head(text, number, node)?;
    write_node_workers(text, number, whole)?;
    write_live(text, index, log, whole, number, node)
}

/// Writes what is said of the node at that place.
#[tactic(auto, unfolding(crate::specs::Nodes::node_lines))]
fn write_node_at(
    text: &mut String,
    index: &BirthIndex,
    log: &[Entry],
    whole: &ClusterState,
    place: usize,
) -> Result<(), AllocError>
    requires { place + 1 < 2 ^ 64 }
    ensures { IsIndexOf index.now log.now → OnOk result
        (string_bytes text.new ≡ string_bytes text.old ++ node_lines log.now whole.now place) }
{
    let Some(node) = whole.nodes.items.get(place) else {
        return Ok(());
    };
    write_node(text, index, log, whole, place + 1, node)
}

/// Writes what is said of each node.
#[tactic(auto, unfolding(crate::specs::Nodes::nodes_text))]
pub fn write_nodes(
    text: &mut String,
    index: &BirthIndex,
    log: &[Entry],
    whole: &ClusterState,
) -> Result<(), AllocError>
    ensures { IsIndexOf index.now log.now → OnOk result
        (string_bytes text.new ≡ string_bytes text.old ++ nodes_text log.now whole.now) }
{
    for place in 0..whole.nodes.len() {
        write_node_at(text, index, log, whole, place)?;
    }
    Ok(())
}
