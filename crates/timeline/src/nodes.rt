// The nodes of a run, and their names.

ghost use Rattle.std.specs.Prelude.{◌≡◌, ◌++◌, IfOk, OnOk, drop, map, string_bytes};
ghost use Rattle.serde_json.specs.View.{view};
ghost use Rattle.timeline.specs.Nodes.{greater, greatest_in_envelopes, greatest_in_log, greatest_node, names_of, node_in_entry, node_in_event};
ghost use Rattle.timeline.specs.Nodes.{node_in_endpoint, node_name, node_names};

use crate::marks::name_json;
use log_entries::{Entry, Event};
use log_words::is_refusal_at;
use protocol_data::{Endpoint, Envelope};
use serde_json::Value;
use std::alloc::{AllocError, Global};

fn greater(one: u32, other: u32) -> u32
    ensures { result ≡ greater one other }
{
    if one < other {
        return other;
    }
    one
}

fn node_in_endpoint(endpoint: Endpoint) -> u32
    ensures { result ≡ node_in_endpoint endpoint }
{
    match endpoint {
        Endpoint::TheWorker(_) => 0,
        Endpoint::TheNode(node) => node.0,
    }
}

fn node_in_event(event: &Event) -> u32
    ensures { result ≡ node_in_event event.now }
{
    match event {
        Event::Lose { node, .. } | Event::KillNode(node) => node.0,
        _ => 0,
    }
}

fn node_in_entry(entry: &Entry, is_refused: bool) -> u32
    ensures { result ≡ node_in_entry entry.now is_refused }
{
    match entry {
        Entry::Opened { node, .. } => node.0,
        Entry::In { event, .. } => {
            if is_refused {
                return 0;
            }
            node_in_event(event)
        }
        _ => 0,
    }
}

fn greatest_in_envelopes(envelopes: &[Envelope]) -> u32
    ensures { result ≡ greatest_in_envelopes 0 envelopes.now }
{
    let mut most = 0;
    for envelope in envelopes {
        most = greater(most, node_in_endpoint(envelope.sender));
        most = greater(most, node_in_endpoint(envelope.receiver));
    }
    most
}

fn greatest_in_log(first: u32, log: &[Entry]) -> u32
    ensures { result ≡ greatest_in_log first log.now }
{
    let mut most = first;
    for (place, entry) in log.iter().enumerate() {
        let is_refused = is_refusal_at(log, place + 1);
        most = greater(most, node_in_entry(entry, is_refused));
    }
    most
}

/// The greatest number of a node that the log or a message names.
pub fn greatest_node(log: &[Entry], envelopes: &[Envelope]) -> u32
    ensures { result ≡ greatest_node envelopes.now log.now }
{
    greatest_in_log(greatest_in_envelopes(envelopes), log)
}

fn node_name(alloc: Global, node: u32) -> Result<String, AllocError>
    ensures { IfOk result (λ s. string_bytes s ≡ node_name node) }
{
    format!(in alloc; "n{node}")
}

fn add_node(alloc: Global, all: &mut Vec<Value>, node: u32) -> Result<(), AllocError>
    ensures { OnOk result (map view all.new.items ≡ map view all.old.items ++ node_names node) }
{
    let name = node_name(alloc, node)?;
    all.push(name_json(alloc, name.as_str(), "process_name", node, 0)?)?;
    all.push(name_json(alloc, name.as_str(), "thread_name", node, 0)?)?;
    Ok(())
}

/// The names of the first nodes, so many.
pub fn node_names(alloc: Global, count: u32) -> Result<Vec<Value>, AllocError>
    ensures { IfOk result (λ all. map view all.items ≡ names_of count) }
{
    let mut all = Vec::new(alloc);
    for before in 0..count {
        add_node(alloc, &mut all, before + 1)?;
    }
    Ok(all)
}
