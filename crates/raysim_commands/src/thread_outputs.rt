// What a run on threads writes.

ghost use Rattle.std.specs.Prelude.{◌≡◌, ◌⊎◌, OnOk, OnErr, IfErr, string_bytes};
ghost use Rattle.std.specs.Io.KnownBytes.{Appends};
ghost use Rattle.script_commands.specs.Scripts.{FailedIn};
ghost use Rattle.raysim_commands.specs.ThreadReports.{AreBegun, IsOfWriting};

use crate::thread_run::Outputs;
use raysim_streams::{CommandRefusal, Sink, put_all};

/// Writes the history, and then the report.
pub fn write_outputs<H: Sink, W: Sink>(
    history: &mut H,
    writer: &mut W,
    out: &Outputs,
) -> Result<(), CommandRefusal>
    ensures history { OnOk result (Appends (H.held history.old) (H.held history.new) (string_bytes out.now.history)) }
    ensures report { OnOk result (Appends (W.held writer.old) (W.held writer.new) (string_bytes out.now.report)) }
    ensures failed { IfErr result (λ refusal. IsOfWriting refusal
        × (FailedIn (W.failures writer.old, W.failures writer.new) ⊎ FailedIn (H.failures history.old, H.failures history.new))) }
    ensures beginning { OnErr result (AreBegun (string_bytes out.now.history) (string_bytes out.now.report)
        (H.held history.old) (H.held history.new) (W.held writer.old) (W.held writer.new)) }
{
    put_all(history, out.history.as_bytes())?;
    put_all(writer, out.report.as_bytes())?;
    Ok(())
}
