// The messages that each event sent.

ghost use Rattle.std.specs.Prelude.{◌≡◌, ◌++◌, OnOk, drop, string_bytes};
ghost use Rattle.message_text.specs.Sent.{is_over, envelopes_between, sent_behind, sent_note, sent_text};

use crate::envelopes::write_envelopes;
use log_entries::Entry;
use log_words::Contents;
use protocol_data::Envelope;
use std::alloc::AllocError;

/// How many messages had been sent behind that event, counted from 1; none before the first.
pub fn sent_behind(sent: &[usize], event: usize) -> usize
    ensures { result ≡ sent_behind sent.now event }
{
    if event == 0 {
        return 0;
    }
    match sent.get(event - 1) {
        Some(count) => *count,
        None => 0,
    }
}

/// The messages with the numbers behind `from`, up to `until`.
pub fn envelopes_between(envelopes: &[Envelope], from: usize, until: usize) -> &[Envelope]
    ensures { result.now ≡ envelopes_between envelopes.now from until }
{
    if from >= envelopes.len() || until <= from {
        return &envelopes[..0];
    }
    let rest = &envelopes[from..];
    let count = until - from;
    if count >= rest.len() {
        return rest;
    }
    &rest[..count]
}

/// Writes the messages that the event sent.
fn write_sent(
    text: &mut String,
    contents: Contents,
    envelopes: &[Envelope],
    sent: &[usize],
    event: usize,
) -> Result<(), AllocError>
    ensures { OnOk result (string_bytes text.new ≡ string_bytes text.old ++ sent_text contents envelopes.now sent.now event) }
{
    if event == 0 {
        return Ok(());
    }
    let from = sent_behind(sent, event - 1);
    let until = sent_behind(sent, event);
    write_envelopes(
        text,
        contents,
        from,
        envelopes_between(envelopes, from, until),
    )
}

/// Whether no entry of an event is still to come at the place.
pub fn is_over_at(log: &[Entry], place: usize) -> bool
    ensures { result ≡ is_over (drop place log.now) }
{
    match log.get(place) {
        None | Some(Entry::In { .. }) => true,
        Some(_) => false,
    }
}

/// Writes the messages that the event sent, where it is over.
pub fn write_sent_where_over(
    text: &mut String,
    contents: Contents,
    envelopes: &[Envelope],
    sent: &[usize],
    event: usize,
    is_over: bool,
) -> Result<(), AllocError>
    ensures { OnOk result (string_bytes text.new ≡ string_bytes text.old ++ sent_note contents envelopes.now sent.now event is_over) }
{
    if is_over {
        return write_sent(text, contents, envelopes, sent, event);
    }
    Ok(())
}
