// The line of the workers that were opened.

ghost use Rattle.std.specs.Prelude.{◌≡◌, ◌++◌, OnOk, string_bytes};
ghost use Rattle.std.specs.List.{list_any};
ghost use Rattle.summary_text.specs.Opened.{is_last, is_opened, is_opened_on, node_count, opened_count, opened_line};

use crate::counted::noun;
use ids::NodeId;
use log_entries::Entry;
use std::alloc::AllocError;

fn is_opened(entry: &Entry) -> bool
    ensures { result ≡ is_opened entry.now }
{
    match entry {
        Entry::Opened { .. } => true,
        _ => false,
    }
}

/// How many workers were opened.
fn opened_count(log: &[Entry]) -> usize
    ensures { result ≡ opened_count log.now }
{
    let mut count = 0;
    for entry in log {
        if is_opened(entry) {
            count += 1;
        }
    }
    count
}

fn is_opened_on(entry: &Entry, node: NodeId) -> bool
    ensures { result ≡ is_opened_on node entry.now }
{
    match entry {
        Entry::Opened { node: on, .. } => on.is(node),
        _ => false,
    }
}

fn is_any_opened_on(entries: &[Entry], node: NodeId) -> bool
    ensures { result ≡ list_any (is_opened_on node) entries.now }
{
    for entry in entries {
        if is_opened_on(entry, node) {
            return true;
        }
    }
    false
}

/// Whether the entry opens a worker on a node on which none of those behind it does.
fn is_last(entry: &Entry, rest: &[Entry]) -> bool
    ensures { result ≡ is_last entry.now rest.now }
{
    match entry {
        Entry::Opened { node, .. } => !is_any_opened_on(rest, *node),
        _ => false,
    }
}

/// On how many nodes workers were opened.
fn node_count(log: &[Entry]) -> usize
    ensures { result ≡ node_count log.now }
{
    let mut count = 0;
    for place in 0..log.len() {
        if is_last(&log[place], &log[place + 1..]) {
            count += 1;
        }
    }
    count
}

/// Writes how many workers were opened, and on how many nodes.
#[tactic(auto, unfolding(crate::specs::Opened::opened_line))]
pub fn write_opened(text: &mut String, log: &[Entry]) -> Result<(), AllocError>
    ensures { OnOk result (string_bytes text.new ≡ string_bytes text.old ++ opened_line log.now) }
{
    let workers = opened_count(log);
    let nodes = node_count(log);
    let of_workers = noun(workers, "worker", "workers");
    let of_nodes = noun(nodes, "node", "nodes");
    write!(
        text,
        "opened: {workers} {of_workers} on {nodes} {of_nodes}\n"
    )
}
