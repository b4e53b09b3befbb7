// The command `serial`: what main prints and how it ends where each remote call is a plain call.

ghost use Rattle.std.specs.Prelude.{◌≡◌, ℕ, take, IfOk, OnOk, IfErr, IfSome, IsErrOf, string_bytes};
ghost use Rattle.std.specs.Io.KnownBytes.{Appends};
ghost use Rattle.script_check.specs.Trees.{script_of};
ghost use Rattle.values.specs.Values.{content_of};
ghost use Rattle.script_commands.specs.Scripts.{IsScript, Explains, IsUnwritten};
ghost use Rattle.report_laws.specs.Serial.{serial_report, serial_status};
ghost use Rattle.script_commands.specs.SerialReports.{status_of, IsReported, IsBegun};

use crate::script::read_checked;
use evaluation::run_serial;
use raysim_streams::{CommandRefusal, Sink, Source, put_all};
use report::write_main_lines;
use script_check::Checked;
use std::alloc::Global;
use values::Content;

/// What `serial` writes, and the status that it ends with.
#[derive(Drop)]
struct SerialReport {
    text: String,
    status: u8,
}

fn status_of(end: &Content) -> u8
    ensures { result ≡ status_of (content_of end.now) }
{
    match end {
        Content::Value(_) => 0,
        Content::Trap(_) => 1,
    }
}

/// The report of a script's serial run.
fn serial_report(alloc: Global, script: &Checked) -> Result<SerialReport, CommandRefusal>
    ensures text { IfOk result (λ report. string_bytes report.text ≡ serial_report (script_of script.now)) }
    ensures status { IfOk result (λ report. report.status ≡ serial_status (script_of script.now)) }
    ensures only { IfErr result (λ refusal. refusal ≡ CommandRefusal.NoMemory) }
{
    let Ok(run) = run_serial(alloc, script) else {
        return Err(CommandRefusal::NoMemory);
    };
    let mut text = String::new(alloc);
    write_main_lines(&mut text, run.prints.as_slice(), &run.end)?;
    let status = status_of(&run.end);
    Ok(SerialReport { text, status })
}

/// Reads a script's text, and writes what main prints and how it ends where every remote call is a plain call: a line `print V` for
/// each print, then `main value V` or `main trap T`. The status is 0 for a value and 1 for a trap.
///
/// Else the refusal says why: `At` where the text is no script that the rules allow, `Failed` where a read or a write failed within the call, or
/// `NoMemory`, where none did. After a failed write a beginning of the report is out; before any other refusal nothing is written.
pub fn serial<R: Source, W: Sink>(
    alloc: Global,
    reader: &mut R,
    writer: &mut W,
) -> Result<u8, CommandRefusal>
    ensures reported { IfOk result (λ status. IfSome (R.left reader.old) (λ text. IsReported text status (W.held writer.old) (W.held writer.new))) }
    ensures refused { IfErr result (λ refusal. Explains (R.left reader.old)
        (R.failures reader.old, R.failures reader.new) (W.failures writer.old, W.failures writer.new) refusal) }
    ensures memory { IsErrOf result CommandRefusal.NoMemory →
        (R.failures reader.new ≡ R.failures reader.old) × (W.failures writer.new ≡ W.failures writer.old) }
    ensures unwritten { IfErr result (λ refusal. IsUnwritten refusal → W.held writer.new ≡ W.held writer.old) }
    ensures beginning { IfErr result (λ refusal. IfSome (R.left reader.old) (λ text. IsBegun text (W.held writer.old) (W.held writer.new))) }
{
    let script = match read_checked(alloc, reader) {
        Ok(script) => script,
        Err(refusal) => return Err(refusal),
    };
    let report = match serial_report(alloc, &script) {
        Ok(report) => report,
        Err(refusal) => return Err(refusal),
    };
    match put_all(writer, report.text.as_bytes()) {
        Ok(()) => Ok(report.status),
        Err(failure) => Err(CommandRefusal::Failed(failure)),
    }
}
