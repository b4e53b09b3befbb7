// Who has a message in an event.

ghost use Rattle.std.specs.Prelude.{◌≡◌, ◌++◌, IfOk, MatchOption, None, OnOk, Some, [], drop};
ghost use Rattle.std.specs.List.{list_any};
ghost use Rattle.protocol_data.specs.declared.message.Endpoint.TheVariants.{TheNode, TheWorker};
ghost use Rattle.timeline.specs.Endpoints.{envelope_at, receivers, same_endpoint, with_endpoint, with_senders};

use log_entries::Event;
use protocol_data::{Endpoint, Envelope};
use std::alloc::{AllocError, Global};

fn is_worker(worker: u32, endpoint: Endpoint) -> bool
    ensures { result ≡ same_endpoint (TheWorker worker) endpoint }
{
    match endpoint {
        Endpoint::TheWorker(other) => worker == other.0,
        Endpoint::TheNode(_) => false,
    }
}

fn is_node(node: u32, endpoint: Endpoint) -> bool
    ensures { result ≡ same_endpoint (TheNode node) endpoint }
{
    match endpoint {
        Endpoint::TheWorker(_) => false,
        Endpoint::TheNode(other) => node == other.0,
    }
}

fn is_same(endpoint: Endpoint, other: Endpoint) -> bool
    ensures { result ≡ same_endpoint endpoint other }
{
    match endpoint {
        Endpoint::TheWorker(worker) => is_worker(worker.0, other),
        Endpoint::TheNode(node) => is_node(node.0, other),
    }
}

fn has_endpoint(endpoints: &[Endpoint], endpoint: Endpoint) -> bool
    ensures { result ≡ list_any (same_endpoint endpoint) endpoints.now }
{
    endpoints.iter().any(|other| is_same(endpoint, *other))
}

/// Adds one, unless it is there.
fn add_endpoint(endpoints: &mut Vec<Endpoint>, endpoint: Endpoint) -> Result<(), AllocError>
    ensures { OnOk result (endpoints.new.items ≡ with_endpoint endpoints.old.items endpoint) }
{
    if has_endpoint(endpoints, endpoint) {
        return Ok(());
    }
    Ok(endpoints.push(endpoint)?)
}

fn add_senders(endpoints: &mut Vec<Endpoint>, envelopes: &[Envelope]) -> Result<(), AllocError>
    ensures { OnOk result (endpoints.new.items ≡ with_senders endpoints.old.items envelopes.now) }
{
    for envelope in envelopes {
        add_endpoint(endpoints, envelope.sender)?;
    }
    Ok(())
}

/// The message of that number, counted from 1.
pub fn envelope_at(envelopes: &[Envelope], message: u64) -> Option<&Envelope>
    ensures { MatchOption result (envelope_at envelopes.now message ≡ None) (λ l. envelope_at envelopes.now message ≡ Some l.now) }
{
    if message == 0 {
        return None;
    }
    envelopes.get((message - 1) as usize)
}

fn receivers(
    alloc: Global,
    envelopes: &[Envelope],
    event: &Event,
) -> Result<Vec<Endpoint>, AllocError>
    ensures { IfOk result (λ all. all.items ≡ receivers envelopes.now event.now) }
{
    let mut all = Vec::new(alloc);
    let Event::Deliver(message) = event else {
        return Ok(all);
    };
    let Some(envelope) = envelope_at(envelopes, *message) else {
        return Ok(all);
    };
    all.push(envelope.receiver)?;
    Ok(all)
}

/// Who receives a message in the event, and who sends one of its own.
pub fn endpoints(
    alloc: Global,
    envelopes: &[Envelope],
    event: &Event,
    own: &[Envelope],
) -> Result<Vec<Endpoint>, AllocError>
    ensures { IfOk result (λ all. all.items ≡ with_senders (receivers envelopes.now event.now) own.now) }
{
    let mut all = receivers(alloc, envelopes, event)?;
    add_senders(&mut all, own)?;
    Ok(all)
}
