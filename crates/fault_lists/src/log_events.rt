// The events that a log has, taken or refused, and whether one was refused.

ghost use Rattle.std.specs.Prelude.{◌≡◌, IfOk, drop};
ghost use Rattle.std.specs.List.{flat_map};
ghost use Rattle.event_log.specs.Events.{refused_next};
ghost use Rattle.fault_lists.specs.Lists.{event_in};

use log_entries::{Entry, Event};
use sequence::Seq;
use std::alloc::{AllocError, Global};

/// Whether a refusal stands at that place.
pub(crate) fn is_refused_at(log: &[Entry], place: usize) -> bool
    ensures { result ≡ refused_next (drop place log.now) }
{
    if place >= log.len() {
        return false;
    }
    matches!(log[place], Entry::Refused(_))
}

/// The events of a log, oldest first, those that were refused too.
pub fn events_in(alloc: Global, log: &[Entry]) -> Result<Seq<Event>, AllocError>
    ensures { IfOk result (λ events. events ≡ flat_map event_in log.now) }
{
    let mut events = Seq::new(alloc);
    for entry in log {
        if let Entry::In { event, .. } = entry {
            events.push(*event)?;
        }
    }
    Ok(events)
}
