// A plan read from a reader, line by line, as far as a plan may go.

ghost use Rattle.std.specs.Prelude.{◌≡◌, IfOk, OnOk, IfErr, IfSome};
ghost use Rattle.event_files.specs.Files.{IsFile};
ghost use Rattle.event_files.specs.Plans.{IsPlanLine, plan_line_text};
ghost use Rattle.event_reading.specs.Files.{ExplainsRows, IsPlanLong};
ghost use Rattle.event_reading.specs.Known.{left_of};

use crate::next_line::{Next, next_plan_line};
use event_files::RunPlan;
use raysim_streams::{CommandRefusal, Source};
use sequence::{Seq, refused_growth};
use std::alloc::Global;

/// How many lines a plan may have that say something; one with more is refused 41.
pub const MOST_PLANNED: usize = 262_144;

/// The lines that are left, where some bytes were read ahead.
fn plan_left<R: Source>(
    alloc: Global,
    reader: &mut R,
    ahead: &mut Vec<u8>,
) -> Result<RunPlan, CommandRefusal>
    ensures read { IfOk result (λ plan. IfSome (left_of ahead.old.items (R.left reader.old)) (λ bytes. IsFile IsPlanLine plan_line_text bytes plan.lines)) }
    ensures refused { IfErr result (ExplainsRows IsPlanLine plan_line_text IsPlanLong (left_of ahead.old.items (R.left reader.old))
        (R.failures reader.old, R.failures reader.new)) }
    ensures unfailed { OnOk result (R.failures reader.new ≡ R.failures reader.old) }
{
    let mut lines = Seq::new(alloc);
    for number in 1..u64::MAX {
        match next_plan_line(alloc, reader, ahead)? {
            Next::End => return Ok(RunPlan { lines }),
            Next::Passed => continue,
            Next::Bad => return Err(CommandRefusal::BadLine { line: number }),
            Next::Said(line) => {
                if lines.len() >= MOST_PLANNED {
                    return Err(CommandRefusal::Stopped { code: 41 });
                }
                lines.push(line)?;
            }
        }
    }
    Err(CommandRefusal::from(refused_growth(alloc)))
}

/// Reads a plan. Nothing is kept of the lines that are passed over.
///
/// Else the refusal says why: `BadLine` with the number of the first line that is none of a plan, behind which nothing is read; `Stopped` with 41
/// where there are more than `MOST_PLANNED` lines that say something, behind which nothing is read either; `NoMemory`
/// where no read failed; or `Failed` where one did.
pub fn read_plan_file<R: Source>(alloc: Global, reader: &mut R) -> Result<RunPlan, CommandRefusal>
    ensures read { IfOk result (λ plan. IfSome (R.left reader.old) (λ bytes. IsFile IsPlanLine plan_line_text bytes plan.lines)) }
    ensures refused { IfErr result (ExplainsRows IsPlanLine plan_line_text IsPlanLong (R.left reader.old)
        (R.failures reader.old, R.failures reader.new)) }
    ensures unfailed { OnOk result (R.failures reader.new ≡ R.failures reader.old) }
{
    let mut ahead = Vec::new(alloc);
    plan_left(alloc, reader, &mut ahead)
}
