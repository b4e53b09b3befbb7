// The spans of events, and the arrows of messages.

ghost use Rattle.std.specs.Prelude.{◌≡◌, ◌+◌, ◌++◌, ◌∷◌, ◌<◌, ◌^◌, [], IfOk, OnOk, drop, if◌then◌else◌, ◌==◌, length, map, string_bytes, take};
ghost use Rattle.serde_json.specs.View.{view};
ghost use Rattle.log_entries.specs.Texts.{event_text};
ghost use Rattle.timeline.specs.Arrows.{arrival, arrow_begins, arrow_ends, arrows, begin_data, end_data, entry_arrows, event_arrows};
ghost use Rattle.timeline.specs.Arrows.{own_envelopes, short_data, short_spans};

use crate::endpoints::{endpoints, envelope_at};
use crate::places::{process, thread};
use crate::rows::Row;
use log_entries::{Entry, Event};
use message_text::{envelopes_between, message_kind, sent_behind};
use protocol_data::{Endpoint, Envelope};
use serde_json::{Value, json};
use std::alloc::{AllocError, Global};

/// An event in the row of one that has a message in it.
fn short_json(
    alloc: Global,
    name: &str,
    rows: &[Row],
    clock: usize,
    endpoint: Endpoint,
) -> Result<Value, AllocError>
    ensures { IfOk result (λ v. view v ≡ short_data name.now rows.now clock endpoint) }
{
    let node = process(rows, endpoint);
    let row = thread(endpoint);
    let time = clock as u64;
    json!(in alloc; {
        "cat": "event",
        "dur": 1u64,
        "name": name,
        "ph": "X",
        "pid": node,
        "tid": row,
        "ts": time
    })
}

/// Where the arrow of a message begins: with its sender.
fn begin_json(
    alloc: Global,
    rows: &[Row],
    clock: usize,
    number: u64,
    envelope: &Envelope,
) -> Result<Value, AllocError>
    ensures { IfOk result (λ v. view v ≡ begin_data rows.now clock number envelope.now) }
{
    let kind = message_kind(&envelope.message);
    let node = process(rows, envelope.sender);
    let row = thread(envelope.sender);
    let time = clock as u64;
    json!(in alloc; {
        "cat": "message",
        "id": number,
        "name": kind,
        "ph": "s",
        "pid": node,
        "tid": row,
        "ts": time
    })
}

/// Where it ends: with its receiver, in the span of this event.
fn end_json(
    alloc: Global,
    rows: &[Row],
    clock: usize,
    number: u64,
    envelope: &Envelope,
) -> Result<Value, AllocError>
    ensures { IfOk result (λ v. view v ≡ end_data rows.now clock number envelope.now) }
{
    let kind = message_kind(&envelope.message);
    let node = process(rows, envelope.receiver);
    let row = thread(envelope.receiver);
    let time = clock as u64;
    json!(in alloc; {
        "bp": "e",
        "cat": "message",
        "id": number,
        "name": kind,
        "ph": "f",
        "pid": node,
        "tid": row,
        "ts": time
    })
}

/// The event in which the message at the place was delivered first, or 0 where there is none.
fn arrival(arrivals: &[usize], place: usize) -> usize
    ensures { result ≡ arrival arrivals.now place }
{
    match arrivals.get(place) {
        Some(clock) => *clock,
        None => 0,
    }
}

/// Adds the arrow that ends in the event.
fn add_end(
    alloc: Global,
    all: &mut Vec<Value>,
    envelopes: &[Envelope],
    arrivals: &[usize],
    rows: &[Row],
    clock: usize,
    event: &Event,
) -> Result<(), AllocError>
    ensures { OnOk result (map view all.new.items ≡ map view all.old.items ++ arrow_ends envelopes.now arrivals.now rows.now clock event.now) }
{
    let Event::Deliver(message) = event else {
        return Ok(());
    };
    if arrival(arrivals, message.saturating_sub(1) as usize) != clock {
        return Ok(());
    }
    let Some(envelope) = envelope_at(envelopes, *message) else {
        return Ok(());
    };
    all.push(end_json(alloc, rows, clock, *message, envelope)?)?;
    Ok(())
}

/// Adds the arrow of a message that begins in the event, where it was delivered.
fn add_begin(
    alloc: Global,
    all: &mut Vec<Value>,
    arrivals: &[usize],
    rows: &[Row],
    clock: usize,
    place: usize,
    envelope: &Envelope,
) -> Result<(), AllocError>
    requires { place + 1 < 2 ^ 64 }
    ensures { OnOk result (map view all.new.items ≡ map view all.old.items
        ++ (if arrival arrivals.now place == 0 then [] else begin_data rows.now clock (place + 1) envelope.now ∷ [])) }
{
    if arrival(arrivals, place) == 0 {
        return Ok(());
    }
    let number = (place + 1) as u64;
    all.push(begin_json(alloc, rows, clock, number, envelope)?)?;
    Ok(())
}

/// Adds the arrows that begin in the event, of the messages behind the first `before`.
fn add_begins(
    alloc: Global,
    all: &mut Vec<Value>,
    arrivals: &[usize],
    rows: &[Row],
    clock: usize,
    before: usize,
    own: &[Envelope],
) -> Result<(), AllocError>
    requires { before + length own.now < 2 ^ 64 }
    ensures { OnOk result (map view all.new.items ≡ map view all.old.items ++ arrow_begins arrivals.now rows.now clock before own.now) }
{
    for (place, envelope) in own.iter().enumerate() {
        add_begin(alloc, all, arrivals, rows, clock, before + place, envelope)?;
    }
    Ok(())
}

/// The messages that the event sent.
fn own_envelopes<'a>(envelopes: &'a [Envelope], sent: &[usize], clock: usize) -> &'a [Envelope]
    ensures { result.now ≡ own_envelopes envelopes.now sent.now clock }
{
    let from = sent_behind(sent, clock.saturating_sub(1));
    let until = sent_behind(sent, clock);
    envelopes_between(envelopes, from, until)
}

fn event_name(alloc: Global, event: &Event) -> Result<String, AllocError>
    ensures { IfOk result (λ s. string_bytes s ≡ event_text event.now) }
{
    format!(in alloc; "{event}")
}

fn add_short(
    alloc: Global,
    all: &mut Vec<Value>,
    name: &str,
    rows: &[Row],
    clock: usize,
    endpoints: &[Endpoint],
) -> Result<(), AllocError>
    ensures { OnOk result (map view all.new.items ≡ map view all.old.items ++ map (short_data name.now rows.now clock) endpoints.now) }
{
    for endpoint in endpoints {
        all.push(short_json(alloc, name, rows, clock, *endpoint)?)?;
    }
    Ok(())
}

/// Adds the event's spans in the rows of those that have a message in it.
fn add_spans(
    alloc: Global,
    all: &mut Vec<Value>,
    envelopes: &[Envelope],
    sent: &[usize],
    rows: &[Row],
    clock: usize,
    event: &Event,
) -> Result<(), AllocError>
    ensures { OnOk result (map view all.new.items ≡ map view all.old.items ++ short_spans envelopes.now sent.now rows.now clock event.now) }
{
    let own = own_envelopes(envelopes, sent, clock);
    let endpoints = endpoints(alloc, envelopes, event, own)?;
    let name = event_name(alloc, event)?;
    add_short(alloc, all, name.as_str(), rows, clock, &endpoints)
}

fn add_both_ends(
    alloc: Global,
    all: &mut Vec<Value>,
    envelopes: &[Envelope],
    sent: &[usize],
    arrivals: &[usize],
    rows: &[Row],
    clock: usize,
    event: &Event,
) -> Result<(), AllocError>
    ensures { OnOk result (map view all.new.items ≡ map view all.old.items ++ arrows envelopes.now sent.now arrivals.now rows.now clock event.now) }
{
    add_end(alloc, all, envelopes, arrivals, rows, clock, event)?;
    let own = own_envelopes(envelopes, sent, clock);
    let before = sent_behind(sent, clock.saturating_sub(1));
    add_begins(alloc, all, arrivals, rows, clock, before, own)
}

fn add_event(
    alloc: Global,
    all: &mut Vec<Value>,
    envelopes: &[Envelope],
    sent: &[usize],
    arrivals: &[usize],
    rows: &[Row],
    clock: usize,
    event: &Event,
) -> Result<(), AllocError>
    ensures { OnOk result (map view all.new.items
        ≡ map view all.old.items ++ event_arrows envelopes.now sent.now arrivals.now rows.now clock event.now) }
{
    add_spans(alloc, all, envelopes, sent, rows, clock, event)?;
    add_both_ends(alloc, all, envelopes, sent, arrivals, rows, clock, event)
}

/// Adds what an entry adds of messages.
pub fn add_arrows(
    alloc: Global,
    all: &mut Vec<Value>,
    envelopes: &[Envelope],
    sent: &[usize],
    arrivals: &[usize],
    rows: &[Row],
    clock: usize,
    entry: &Entry,
    is_refused: bool,
) -> Result<(), AllocError>
    ensures { OnOk result (map view all.new.items
        ≡ map view all.old.items ++ entry_arrows envelopes.now sent.now arrivals.now rows.now clock entry.now is_refused) }
{
    let Entry::In { event, .. } = entry else {
        return Ok(());
    };
    if is_refused {
        return Ok(());
    }
    add_event(alloc, all, envelopes, sent, arrivals, rows, clock, event)
}
