// A log's events as a history, which is an event file of format 2.

ghost use Rattle.std.specs.Prelude.{◌≡◌, ◌+◌, ◌<◌, ◌^◌, IfOk, drop, string_bytes};
ghost use Rattle.event_log.specs.Events.{refused_next};
ghost use Rattle.event_files.specs.Recorded.{AreRecorded, IsEventFile, IsGiven, recorded_file};
ghost use Rattle.event_files.specs.declared.event_file.EventFile.TheVariants as files;
ghost use Rattle.event_files.specs.Lines.{IsEvent};
ghost use Rattle.event_files.specs.LogHistory.{AreSeated, claims_behind, given_by, recorded_in};

use crate::recorded::{RecordedEvent, print_recorded};
use log_entries::{Entry, Event};
use std::alloc::{AllocError, Global};

/// Whether a refusal stands at that place.
fn is_refused_at(log: &[Entry], place: usize) -> bool
    ensures { result ≡ refused_next (drop place log.now) }
{
    if place >= log.len() {
        return false;
    }
    matches!(log[place], Entry::Refused(_))
}

fn given_by(event: Event, refused: bool, claims: u64) -> Option<u64>
    requires { claims + 1 < 2 ^ 64 }
    ensures gives { result ≡ given_by event refused claims }
    ensures fits { IsEvent event × IsGiven event result }
{
    match event {
        Event::Claim(_) => Some(if refused { 0 } else { claims + 1 }),
        _ => None,
    }
}

fn claims_behind(event: Event, refused: bool, claims: u64) -> u64
    requires { claims + 1 < 2 ^ 64 }
    ensures { result ≡ claims_behind event refused claims }
{
    match event {
        Event::Claim(_) => {
            if refused {
                return claims;
            }
            claims + 1
        }
        _ => claims,
    }
}

/// The events of a log, oldest first.
fn recorded_in(alloc: Global, log: &[Entry]) -> Result<Vec<RecordedEvent>, AllocError>
    ensures says { IfOk result (λ events. events.items ≡ recorded_in log.now) }
    ensures fits { IfOk result (λ events. AreSeated log.now → AreRecorded events.items) }
{
    let mut events = Vec::new(alloc);
    let mut claims = 0;
    for place in 0..log.len() {
        if let Entry::In { event, seat } = &log[place] {
            let refused = is_refused_at(log, place + 1);
            events.push(RecordedEvent {
                seat: *seat,
                event: *event,
                given: given_by(*event, refused, claims),
            })?;
            claims = claims_behind(*event, refused, claims);
        }
    }
    Ok(events)
}

/// The events of a log as an event file of format 2, oldest first, refused ones too, each with its seat, and a claim with the number of the job that
/// it gave (docs/event-files.md). Where the events came from seats 0 to 8, the text is read as these events.
pub fn history(alloc: Global, log: &[Entry]) -> Result<String, AllocError>
    ensures written { IfOk result (λ text. string_bytes text ≡ recorded_file (recorded_in log.now)) }
    ensures is_file { IfOk result (λ text. AreSeated log.now → IsEventFile (string_bytes text) (files.Recorded (recorded_in log.now))) }
{
    let events = recorded_in(alloc, log)?;
    print_recorded(alloc, events.as_slice())
}
