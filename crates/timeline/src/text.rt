// The timeline of a run as JSON.

ghost use Rattle.std.specs.Prelude.{◌≡◌, ◌++◌, IfOk, codes, map, string_bytes};
ghost use Rattle.serde_json.specs.View.{view};
ghost use Rattle.serde_json.specs.Written.{compact_text};
ghost use Rattle.timeline.specs.Text.{timeline_data, trace_data};

use crate::arrivals::arrivals_in;
use crate::entries::add_entries;
use crate::nodes::{greatest_node, node_names};
use log_entries::Entry;
use log_words::Contents;
use protocol_data::Envelope;
use serde_json::{Value, json};
use std::alloc::{AllocError, Global};

fn trace_values(
    alloc: Global,
    contents: Contents,
    log: &[Entry],
    envelopes: &[Envelope],
    sent: &[usize],
) -> Result<Vec<Value>, AllocError>
    ensures { IfOk result (λ all. map view all.items ≡ trace_data contents log.now envelopes.now sent.now) }
{
    let arrivals = arrivals_in(alloc, log, envelopes, sent)?;
    let mut all = node_names(alloc, greatest_node(log, envelopes))?;
    add_entries(alloc, &mut all, contents, log, envelopes, sent, &arrivals)?;
    Ok(all)
}

fn timeline_value(
    alloc: Global,
    contents: Contents,
    log: &[Entry],
    envelopes: &[Envelope],
    sent: &[usize],
) -> Result<Value, AllocError>
    ensures { IfOk result (λ v. view v ≡ timeline_data contents log.now envelopes.now sent.now) }
{
    let all = Value::Array(trace_values(alloc, contents, log, envelopes, sent)?);
    json!(in alloc; {"displayTimeUnit": "ms", "traceEvents": all})
}

fn compact(
    alloc: Global,
    contents: Contents,
    log: &[Entry],
    envelopes: &[Envelope],
    sent: &[usize],
) -> Result<String, AllocError>
    ensures { IfOk result (λ text. string_bytes text ≡ compact_text (timeline_data contents log.now envelopes.now sent.now)) }
{
    timeline_value(alloc, contents, log, envelopes, sent)?.to_string(alloc)
}

/// A run as Chrome's trace events, for its viewers and others that read them: one object on one line that ends with a line
/// feed. A process is a node and a thread a worker, or as thread 0 the node itself, each with its name; the clock is the number of the event,
/// shown as microseconds. `envelopes` are all messages in the order of their numbers, and `sent` is how many had been sent behind each event.
///
/// A span of the category `attempt` goes from the event in which the owner learned that the worker runs the attempt to its
/// end, named by its call, with the attempt and how it ended: its content, its fault, `killed` where its worker died, or
/// `open` at the end of the log. A span of the category `get` goes from the commit of the job that stopped at the get to its
/// answer, named by the object, but for one that is answered in the same event; one that is never answered is named `get`,
/// since the log does not say for what it waits. Deaths and losses of copies are instants of the category `failure`.
///
/// A span of the category `event`, of duration 1, is an accepted event in the row of its message's receiver or of one that sends a message in it. A
/// flow of the category `message`, whose id is the message's number and whose name its kind, goes from the sender's row in the event that
/// sent it to the receiver's row in the first accepted event that delivered it, where there is one. An event without a count in `sent` sent
/// nothing.
///
/// It is made of any log, a legal one or not. For each entry, and each message, it goes over the workers.
pub fn timeline_json(
    alloc: Global,
    contents: Contents,
    log: &[Entry],
    envelopes: &[Envelope],
    sent: &[usize],
) -> Result<String, AllocError>
    ensures { IfOk result (λ text. string_bytes text ≡ compact_text (timeline_data contents log.now envelopes.now sent.now) ++ codes "\n") }
{
    let mut text = compact(alloc, contents, log, envelopes, sent)?;
    text.push_str("\n")?;
    Ok(text)
}
