// Event files and plans, read and made into texts of the same lines.

ghost use Rattle.std.specs.Prelude.{◌≡◌, IfOk, OnOk, IfErr, IfSome};
ghost use Rattle.event_files.specs.Lines.{IsLine, line_text};
ghost use Rattle.event_files.specs.Plans.{IsPlanLine, plan_line_text};
ghost use Rattle.event_reading.specs.Files.{AreSettlesLong, ExplainsFile, ExplainsRows, IsPlanLong};
ghost use Rattle.kept_lists.specs.Lists.{IsPlainTextOf, IsPlanTextOf, IsTextOf};

use crate::texts::{events_text, lines_text, plan_text};
use event_reading::{read_event_file, read_lines, read_plan_file};
use raysim_streams::{CommandRefusal, Source};
use std::alloc::Global;

/// Reads an event file of either format, and gives it as a text of the same lines, as far as a replay may go. The refusal is that of
/// `event_reading::read_event_file`.
pub fn read_event_list<R: Source>(alloc: Global, reader: &mut R) -> Result<Vec<u8>, CommandRefusal>
    ensures read { IfOk result (λ text. IfSome (R.left reader.old) (λ bytes. IsTextOf bytes text.items)) }
    ensures refused { IfErr result (ExplainsFile (R.left reader.old) (R.failures reader.old, R.failures reader.new)) }
    ensures unfailed { OnOk result (R.failures reader.new ≡ R.failures reader.old) }
{
    let kept = read_event_file(alloc, reader)?;
    let text = events_text(alloc, &kept)?;
    Ok(text.into_bytes())
}

/// Reads an event file of format 1 alike. The refusal is that of `event_reading::read_lines`.
pub fn read_first_format<R: Source>(
    alloc: Global,
    reader: &mut R,
) -> Result<Vec<u8>, CommandRefusal>
    ensures read { IfOk result (λ text. IfSome (R.left reader.old) (λ bytes. IsPlainTextOf bytes text.items)) }
    ensures refused { IfErr result (ExplainsRows IsLine line_text AreSettlesLong (R.left reader.old) (R.failures reader.old, R.failures reader.new)) }
    ensures unfailed { OnOk result (R.failures reader.new ≡ R.failures reader.old) }
{
    let kept = read_lines(alloc, reader)?;
    let text = lines_text(alloc, &kept)?;
    Ok(text.into_bytes())
}

/// Reads a plan, and gives it as a text of the lines that say something. The refusal is that of `event_reading::read_plan_file`.
pub fn read_plan_list<R: Source>(alloc: Global, reader: &mut R) -> Result<Vec<u8>, CommandRefusal>
    ensures read { IfOk result (λ text. IfSome (R.left reader.old) (λ bytes. IsPlanTextOf bytes text.items)) }
    ensures refused { IfErr result (ExplainsRows IsPlanLine plan_line_text IsPlanLong (R.left reader.old) (R.failures reader.old, R.failures reader.new)) }
    ensures unfailed { OnOk result (R.failures reader.new ≡ R.failures reader.old) }
{
    let plan = read_plan_file(alloc, reader)?;
    let text = plan_text(alloc, &plan)?;
    Ok(text.into_bytes())
}
