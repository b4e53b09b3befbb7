// Event files read whole, in format 1 or format 2 as their first line says.

ghost use Rattle.std.specs.Prelude.{◌≡◌, IfOk, IfErr};
ghost use Rattle.event_files.specs.Recorded.{IsEventFile, IsFileRefusal};

use crate::error::EventError;
use crate::events::parse_events;
use crate::line::Line;
use crate::parts::behind;
use crate::recorded::{RecordedEvent, parse_recorded};
use sequence::Seq;
use std::alloc::Global;

/// What an event file says.
#[derive(Drop)]
pub enum EventFile {
    /// A file of format 1: events, and settles that stand for events.
    Lines(Seq<Line>),
    /// A file of format 2: events with their seats, and with the jobs that claims gave.
    Recorded(Seq<RecordedEvent>),
}

/// Reads an event file of either format: one whose first line is `raysim 2` is of format 2 (docs/event-files.md).
///
/// Answers `BadLine` with the number of the first line, counted from 1, that is none of its format.
pub fn parse_event_file(alloc: Global, text: &[u8]) -> Result<EventFile, EventError>
    ensures read { IfOk result (IsEventFile text.now) }
    ensures refused { IfErr result (IsFileRefusal text.now) }
{
    if let Some(rest) = behind(b"raysim 2\n", text) {
        return Ok(EventFile::Recorded(parse_recorded(alloc, rest)?));
    }
    Ok(EventFile::Lines(parse_events(alloc, text)?))
}
