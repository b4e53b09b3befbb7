// In which event each message was delivered first.

ghost use Rattle.std.specs.Prelude.{◌≡◌, ◌<◌, ◌^◌, IfOk, OnOk, length, map, slice_get};
ghost use Rattle.log_words.specs.Told.{told_of};
ghost use Rattle.timeline.specs.Arrivals.{after_event, arrivals_after, arrivals_in, delivered, is_still_none};

use log_entries::{Entry, Event};
use log_words::{Told, is_refusal_at};
use message_text::sent_behind;
use protocol_data::Envelope;
use std::alloc::{AllocError, Global};

/// None of the messages was delivered.
fn no_arrivals(alloc: Global, envelopes: &[Envelope]) -> Result<Vec<usize>, AllocError>
    ensures { IfOk result (λ all. all.items ≡ map (λ l. 0) envelopes.now) }
{
    let mut all = Vec::new(alloc);
    for _envelope in envelopes {
        all.push(0)?;
    }
    Ok(all)
}

/// Whether there is a message at the place that wasn't delivered yet.
fn is_still_none(arrivals: &[usize], place: usize) -> bool
    ensures { result ≡ is_still_none (slice_get arrivals.now place) }
{
    match arrivals.get(place) {
        Some(clock) => *clock == 0,
        None => false,
    }
}

/// Notes that the message at the place is delivered.
fn note_delivered(sent: &[usize], arrivals: &mut Vec<usize>, clock: usize, place: usize)
    ensures { arrivals.new.items ≡ delivered sent.now arrivals.old.items clock place }
{
    if place >= sent_behind(sent, clock.saturating_sub(1)) {
        return;
    }
    if is_still_none(arrivals, place) {
        arrivals[place] = clock;
    }
}

fn note_event(sent: &[usize], arrivals: &mut Vec<usize>, clock: usize, event: &Event)
    ensures { arrivals.new.items ≡ after_event sent.now arrivals.old.items clock event.now }
{
    let Event::Deliver(message) = event else {
        return;
    };
    if *message == 0 {
        return;
    }
    note_delivered(sent, arrivals, clock, (*message - 1) as usize);
}

fn note_entry(
    sent: &[usize],
    arrivals: &mut Vec<usize>,
    clock: usize,
    entry: &Entry,
    is_refused: bool,
)
    ensures { arrivals.new.items ≡ arrivals_after sent.now arrivals.old.items clock entry.now is_refused }
{
    let Entry::In { event, .. } = entry else {
        return;
    };
    if is_refused {
        return;
    }
    note_event(sent, arrivals, clock, event);
}

/// For each message the number of the event that delivered it first; 0 where there is none.
pub fn arrivals_in(
    alloc: Global,
    log: &[Entry],
    envelopes: &[Envelope],
    sent: &[usize],
) -> Result<Vec<usize>, AllocError>
    ensures { IfOk result (λ all. all.items ≡ arrivals_in envelopes.now sent.now log.now) }
{
    let mut all = no_arrivals(alloc, envelopes)?;
    let mut told = Told::new(alloc);
    for (place, entry) in log.iter().enumerate() {
        let is_refused = is_refusal_at(log, place + 1);
        told.note(entry, is_refused)?;
        note_entry(sent, &mut all, told.events, entry, is_refused);
    }
    Ok(all)
}
