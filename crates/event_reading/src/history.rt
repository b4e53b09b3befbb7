// An event file of format 2 read line by line behind its first line.

ghost use Rattle.std.specs.Prelude.{◌≡◌, IfOk, OnOk, IfErr, IfSome};
ghost use Rattle.event_files.specs.Recorded.{IsRecorded, recorded_text};
ghost use Rattle.event_reading.specs.Known.{left_of};
ghost use Rattle.event_reading.specs.Files.{AreKept, ExplainsBehind, each_is_event};

use crate::kept::Kept;
use crate::next_line::{Next, next_recorded};
use event_files::RecordedEvent;
use raysim_streams::{CommandRefusal, Source};
use sequence::refused_growth;
use std::alloc::Global;

/// The lines that are left behind the first line, where some bytes were read ahead.
pub fn events_left<R: Source>(
    alloc: Global,
    reader: &mut R,
    ahead: &mut Vec<u8>,
) -> Result<Kept<RecordedEvent>, CommandRefusal>
    ensures read { IfOk result (λ kept. IfSome (left_of ahead.old.items (R.left reader.old))
        (λ bytes. AreKept each_is_event IsRecorded recorded_text 2 bytes kept)) }
    ensures refused { IfErr result (ExplainsBehind (left_of ahead.old.items (R.left reader.old)) (R.failures reader.old, R.failures reader.new)) }
    ensures unfailed { OnOk result (R.failures reader.new ≡ R.failures reader.old) }
{
    let mut kept = Kept::new(alloc);
    for number in 2..u64::MAX {
        match next_recorded(alloc, reader, ahead)? {
            Next::End => return Ok(kept),
            Next::Passed => continue,
            Next::Bad => return Err(CommandRefusal::BadLine { line: number }),
            Next::Said(said) => kept.keep(said, number as usize, true)?,
        }
    }
    Err(CommandRefusal::from(refused_growth(alloc)))
}
