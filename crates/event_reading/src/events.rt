// An event file of either format read from a reader, as far as a replay may go.

ghost use Rattle.std.specs.Prelude.{◌≡◌, IfOk, OnOk, IfErr, IfSome};
ghost use Rattle.event_reading.specs.Files.{AreEventsKept, ExplainsFile};

use crate::ahead::is_header_taken;
use crate::history::events_left;
use crate::lines::lines_left;
use event_files::EventFile;
use raysim_streams::{CommandRefusal, Source};
use sequence::Seq;
use std::alloc::Global;

/// What an event file says, as far as a replay may go: behind the first 100,001 events none is kept.
#[derive(Drop)]
pub struct KeptEvents {
    /// The lines, by the file's format.
    pub says: EventFile,
    /// The numbers in the file of the lines that say it, counted from 1.
    pub numbers: Seq<usize>,
    /// Whether each line that says something is kept.
    pub is_whole: bool,
    /// How many of those that are kept are events.
    pub events: usize,
}

/// Reads an event file of either format. Behind 100,001 events nothing is kept, and nothing of the lines that are passed over.
///
/// Else the refusal says why: `BadLine` with the number of the first line that is none of its format, behind which nothing is read; `Stopped` with
/// 41 where settle lines have more than `MOST_SETTLED` bytes, behind which nothing is read either; `NoMemory`
/// where no read failed; or `Failed` where one did.
pub fn read_event_file<R: Source>(
    alloc: Global,
    reader: &mut R,
) -> Result<KeptEvents, CommandRefusal>
    ensures read { IfOk result (λ kept. IfSome (R.left reader.old) (λ bytes. AreEventsKept bytes kept)) }
    ensures refused { IfErr result (ExplainsFile (R.left reader.old) (R.failures reader.old, R.failures reader.new)) }
    ensures unfailed { OnOk result (R.failures reader.new ≡ R.failures reader.old) }
{
    let mut ahead = Vec::new(alloc);
    if is_header_taken(alloc, reader, &mut ahead)? {
        let kept = events_left(alloc, reader, &mut ahead)?;
        return Ok(KeptEvents {
            says: EventFile::Recorded(kept.says),
            numbers: kept.numbers,
            is_whole: kept.is_whole,
            events: kept.events,
        });
    }
    let kept = lines_left(alloc, reader, &mut ahead)?;
    Ok(KeptEvents {
        says: EventFile::Lines(kept.says),
        numbers: kept.numbers,
        is_whole: kept.is_whole,
        events: kept.events,
    })
}
