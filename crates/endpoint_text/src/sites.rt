// A node, and how it came.

ghost use Rattle.std.specs.Prelude.{◌≡◌, ◌≤◌, ◌++◌, IfOk, OnOk, length, string_bytes};
ghost use Rattle.std.specs.List.{flat_map};
ghost use Rattle.why_text.specs.Moments.{moment_of};
ghost use Rattle.endpoint_text.specs.Nodes.{first_note, first_text, is_first, is_join, is_on, join_text, joined, joins_now, one_join, ran_at_in};
ghost use Rattle.endpoint_text.specs.Nodes.{seen_of, site_of};

use ids::{AttemptId, NodeId};
use log_entries::{Entry, Event};
use log_text::{node_of, opened};
use log_words::is_refusal_at;
use main_text::write_node;
use std::alloc::{AllocError, Global};
use why_text::{Moment, is_node, write_when};

/// A node, the numbers of the nodes of all workers, the attempts that ran on its workers, and how many nodes there are in all.
#[derive(Drop)]
pub struct Site {
    pub node: NodeId,
    /// The node's number of each worker, that of worker 1 first.
    pub nodes: Vec<u32>,
    /// The attempts that began on its workers, in order.
    pub attempts: Vec<AttemptId>,
    /// How many nodes there are in all.
    pub count: usize,
}

/// Whether the worker of that number is on the node, where `nodes` are those of all workers.
pub fn is_on(nodes: &[u32], node: NodeId, worker: u32) -> bool
    ensures { result ≡ is_on nodes.now node worker }
{
    is_node(node.0, node_of(nodes, worker))
}

fn add_run(
    runs: &mut Vec<AttemptId>,
    nodes: &[u32],
    node: NodeId,
    entry: &Entry,
) -> Result<(), AllocError>
    ensures { OnOk result (runs.new.items ≡ runs.old.items ++ ran_at_in nodes.now node entry.now) }
{
    let Entry::Begun { attempt, worker } = entry else {
        return Ok(());
    };
    if is_on(nodes, node, worker.0) {
        return Ok(runs.push(*attempt)?);
    }
    Ok(())
}

/// The attempts that ran on the node's workers, in the order in which they were begun.
fn ran_at(
    alloc: Global,
    log: &[Entry],
    nodes: &[u32],
    node: NodeId,
) -> Result<Vec<AttemptId>, AllocError>
    ensures { IfOk result (λ runs. runs.items ≡ flat_map (ran_at_in nodes.now node) log.now) }
{
    let mut runs = Vec::new(alloc);
    for entry in log {
        add_run(&mut runs, nodes, node, entry)?;
    }
    Ok(runs)
}

impl Site {
    /// The node with what the log says of it, where so many nodes are there in all.
    pub fn of(alloc: Global, log: &[Entry], count: usize, node: NodeId) -> Result<Site, AllocError>
        ensures { IfOk result (λ site. seen_of site ≡ site_of log.now count node) }
    {
        let nodes = opened(alloc, log)?;
        let attempts = ran_at(alloc, log, &nodes, node)?;
        Ok(Site {
            node,
            nodes,
            attempts,
            count,
        })
    }
}

fn is_join(entry: &Entry) -> bool
    ensures { result ≡ is_join entry.now }
{
    match entry {
        Entry::In {
            event: Event::Join,
            ..
        } => true,
        _ => false,
    }
}

/// How many nodes joined.
fn joined(log: &[Entry]) -> usize
    ensures count { result ≡ joined log.now }
    ensures few { result ≤ length log.now }
{
    let mut count = 0;
    for (place, entry) in log.iter().enumerate() {
        if is_join(entry) && !is_refusal_at(log, place + 1) {
            count += 1;
        }
    }
    count
}

/// Whether the node is none of those that joined.
fn is_first(log: &[Entry], site: &Site) -> bool
    ensures { result ≡ is_first log.now (seen_of site.now) }
{
    (site.node.0 as u128) + (joined(log) as u128) < (site.count as u128) + 1
}

fn write_first(text: &mut String, node: NodeId) -> Result<(), AllocError>
    ensures { OnOk result (string_bytes text.new ≡ string_bytes text.old ++ first_text node) }
{
    write_node(text, node)?;
    text.push_str(" was there at the start.\n")
}

/// Writes that the node was there at the start, if it was.
#[tactic(auto, unfolding(crate::specs::Nodes::first_note))]
pub fn write_first_note(text: &mut String, log: &[Entry], site: &Site) -> Result<(), AllocError>
    ensures { OnOk result (string_bytes text.new ≡ string_bytes text.old ++ first_note log.now (seen_of site.now)) }
{
    if is_first(log, site) {
        return write_first(text, site.node);
    }
    Ok(())
}

/// Writes when the node joined.
pub fn write_join(text: &mut String, moment: &Moment, node: NodeId) -> Result<(), AllocError>
    ensures { OnOk result (string_bytes text.new ≡ string_bytes text.old ++ join_text (moment_of moment.now) node) }
{
    write_node(text, node)?;
    text.push_str(" joined")?;
    write_when(text, moment)?;
    text.push_str(".\n")
}

/// Whether it is the node that joins behind those entries.
pub fn joins_now(log: &[Entry], site: &Site, before: &[Entry]) -> bool
    ensures { result ≡ joins_now log.now (seen_of site.now) before.now }
{
    let there = (site.count as u128) + (joined(before) as u128) + 1;
    there == (site.node.0 as u128) + (joined(log) as u128)
}
