// An event file of format 1 read line by line, as far as a replay may go.

ghost use Rattle.std.specs.Prelude.{◌≡◌, IfOk, OnOk, IfErr, IfSome};
ghost use Rattle.event_files.specs.Lines.{IsLine, line_text};
ghost use Rattle.event_reading.specs.Known.{IfKnown, left_of};
ghost use Rattle.event_reading.specs.Files.{AreLinesKept, AreSettlesLong, ExplainsRows, is_event_line};

use crate::kept::{Kept, MOST_SETTLED};
use crate::next_line::{Next, next_line};
use event_files::Line;
use raysim_streams::{CommandRefusal, Source};
use sequence::refused_growth;
use std::alloc::Global;

fn is_event(line: &Line) -> bool
    ensures { result ≡ is_event_line line.now }
{
    matches!(line, Line::Event(_))
}

/// The lines that are left, where some bytes were read ahead.
pub fn lines_left<R: Source>(
    alloc: Global,
    reader: &mut R,
    ahead: &mut Vec<u8>,
) -> Result<Kept<Line>, CommandRefusal>
    ensures read { IfOk result (λ kept. IfSome (left_of ahead.old.items (R.left reader.old)) (λ bytes. AreLinesKept bytes kept)) }
    ensures refused { IfErr result (ExplainsRows IsLine line_text AreSettlesLong (left_of ahead.old.items (R.left reader.old))
        (R.failures reader.old, R.failures reader.new)) }
    ensures unfailed { OnOk result (R.failures reader.new ≡ R.failures reader.old) }
{
    let mut kept = Kept::new(alloc);
    let mut room = MOST_SETTLED;
    for number in 1..u64::MAX {
        match next_line(alloc, reader, ahead, &mut room)? {
            Next::End => return Ok(kept),
            Next::Passed => continue,
            Next::Bad => return Err(CommandRefusal::BadLine { line: number }),
            Next::Said(line) => {
                let counts = is_event(&line);
                kept.keep(line, number as usize, counts)?;
            }
        }
    }
    Err(CommandRefusal::from(refused_growth(alloc)))
}

/// Reads a file of format 1. Behind 100,001 events nothing is kept, and nothing of the lines that are passed over.
///
/// Else the refusal says why: `BadLine` with the number of the first line that is none of format 1, behind which nothing is read; `Stopped` with
/// 41 where settle lines have more than `MOST_SETTLED` bytes, behind which nothing is read either; `NoMemory`
/// where no read failed; or `Failed` where one did.
pub fn read_lines<R: Source>(alloc: Global, reader: &mut R) -> Result<Kept<Line>, CommandRefusal>
    ensures read { IfOk result (λ kept. IfSome (R.left reader.old) (λ bytes. AreLinesKept bytes kept)) }
    ensures refused { IfErr result (ExplainsRows IsLine line_text AreSettlesLong (R.left reader.old) (R.failures reader.old, R.failures reader.new)) }
    ensures unfailed { OnOk result (R.failures reader.new ≡ R.failures reader.old) }
{
    let mut ahead = Vec::new(alloc);
    lines_left(alloc, reader, &mut ahead)
}
