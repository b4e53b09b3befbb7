// How many messages of a kind a run sent, and how many of them were delivered.

ghost use Rattle.std.specs.Prelude.{◌≡◌, MatchOption, None, Some};
ghost use Rattle.event_log.specs.Events.{from_one};
ghost use Rattle.message_counts.specs.Counts.{deliveries, is_delivery, is_kind_at, is_of_kind, sent_count};

use log_entries::{Entry, Event};
use log_words::is_refusal_at;
use message_text::message_kind;
use protocol_data::Envelope;

fn is_of_kind(envelope: &Envelope, kind: &str) -> bool
    ensures { result ≡ is_of_kind kind.now envelope.now }
{
    message_kind(&envelope.message) == kind
}

/// How many messages of the kind were sent.
pub fn sent_count(envelopes: &[Envelope], kind: &str) -> usize
    ensures { result ≡ sent_count kind.now envelopes.now }
{
    let mut count = 0;
    for envelope in envelopes {
        if is_of_kind(envelope, kind) {
            count += 1;
        }
    }
    count
}

/// The message of that number.
#[tactic(auto, using(crate::proofs::Numbered::item_there, crate::proofs::Numbered::no_item))]
fn envelope_at(envelopes: &[Envelope], number: u64) -> Option<&Envelope>
    ensures { MatchOption result (from_one envelopes.now number ≡ None) (λ x. from_one envelopes.now number ≡ Some x.now) }
{
    if number == 0 {
        return None;
    }
    let place = (number - 1) as usize;
    envelopes.get(place)
}

/// Whether the message of that number is of the kind.
fn is_kind_at(envelopes: &[Envelope], number: u64, kind: &str) -> bool
    ensures { result ≡ is_kind_at kind.now (from_one envelopes.now number) }
{
    match envelope_at(envelopes, number) {
        None => false,
        Some(envelope) => is_of_kind(envelope, kind),
    }
}

/// Whether the entry is the delivery of a message of the kind.
fn is_delivery(envelopes: &[Envelope], kind: &str, entry: &Entry, is_refused: bool) -> bool
    ensures { result ≡ is_delivery kind.now envelopes.now entry.now is_refused }
{
    if is_refused {
        return false;
    }
    match entry {
        Entry::In {
            event: Event::Deliver(number),
            ..
        } => is_kind_at(envelopes, *number, kind),
        _ => false,
    }
}

/// How many times messages of the kind were delivered; an event that was refused delivers none.
pub fn deliveries(envelopes: &[Envelope], log: &[Entry], kind: &str) -> usize
    ensures { result ≡ deliveries kind.now envelopes.now log.now }
{
    let mut count = 0;
    for (place, entry) in log.iter().enumerate() {
        let is_refused = is_refusal_at(log, place + 1);
        if is_delivery(envelopes, kind, entry, is_refused) {
            count += 1;
        }
    }
    count
}
