// The command `run` on one thread: a script's run that is driven to its end, and its report.

ghost use Rattle.std.specs.Prelude.{◌≡◌, IfOk, IfErr, IfSome, string_bytes, IsErrOf};
ghost use Rattle.script_check.specs.Trees.{script_of};
ghost use Rattle.script_commands.specs.Scripts.{IsUnwritten};
ghost use Rattle.run_commands.specs.RunReports.{ExplainsRun, IsReportOf, IsRunBegun, IsRunReported, IsRunStop};

use crate::form::Form;
use crate::run_memory::{RunMemory, leave};
use crate::run_stops::run_refusal;
use crate::telling::{SoFar, told};
use fault_runs::{Board, Cluster, Core, drive, no_numbers};
use raysim_streams::{CommandRefusal, Sink, Source, put_all};
use run_watch::Watcher;
use script_commands::read_compiled;
use segment::{Compiled, ScriptName};
use sequence::Seq;
use std::alloc::Global;
use std::marker::Brand;

/// What is written of a script's run, which is driven to its end.
fn run_script<S: ScriptName, L: Watcher>(
    alloc: Global,
    script: &Compiled,
    cluster: Cluster,
    form: Form,
    memory: RunMemory,
    watcher: &mut L,
) -> Result<SoFar, CommandRefusal>
    requires { script_of script.now ≡ S.script }
    ensures reported { IfOk result (λ report. IsReportOf (script_of script.now) cluster form (string_bytes report.text) report.status) }
    ensures stopped { IfErr result (IsRunStop (script_of script.now) cluster) }
{
    let core = match Core::<S>::new(alloc, script.script(), cluster) {
        Ok(core) => core,
        Err(_) => return Err(CommandRefusal::NoMemory),
    };
    let mut board = Board::new(core);
    let mut sent = no_numbers(alloc);
    if let Err(refusal) = drive(alloc, &mut board, &mut sent, script, watcher) {
        drop(board);
        return Err(run_refusal(refusal));
    }
    let nowhere = Seq::new(alloc);
    let told = told(alloc, &board, &sent, &nowhere, form);
    leave(board, memory);
    told
}

/// Reads a script's text, runs its remote calls as tasks on this cluster until nothing is left to do, and writes the run's report
/// (docs/runs.md, "The report"), or what else the form asks for of it. The status is 0 where main ends with a value, 1 where it ends with a
/// trap, and 2 where it is open or has a fault.
///
/// Else the refusal says why: `At` where the text is no script that the rules allow, `NoMemory`, `Stopped` where the run stops before its
/// end for another cause, with the number that an event of it is refused (37 at a limit); or `Failed` where a read or a write failed within
/// the call. After a failed write a beginning of the report is out; before any other refusal nothing is
/// written. The watcher looks on while the run goes on, and changes nothing. What the run took in memory is given back, or left to the end of the process,
/// as is asked.
pub fn run<R: Source, W: Sink, L: Watcher>(
    alloc: Global,
    reader: &mut R,
    cluster: Cluster,
    form: Form,
    memory: RunMemory,
    writer: &mut W,
    watcher: &mut L,
) -> Result<u8, CommandRefusal>
    ensures reported { IfOk result (λ status. IfSome (R.left reader.old) (λ text.
        IsRunReported cluster form text status (W.held writer.old) (W.held writer.new))) }
    ensures refused { IfErr result (λ refusal. ExplainsRun cluster (R.left reader.old)
        (R.failures reader.old, R.failures reader.new) (W.failures writer.old, W.failures writer.new) refusal) }
    ensures memory { IsErrOf result CommandRefusal.NoMemory →
        (R.failures reader.new ≡ R.failures reader.old) × (W.failures writer.new ≡ W.failures writer.old) }
    ensures unwritten { IfErr result (λ refusal. IsUnwritten refusal → W.held writer.new ≡ W.held writer.old) }
    ensures beginning { IfErr result (λ refusal. IfSome (R.left reader.old) (λ text.
        IsRunBegun cluster form text (W.held writer.old) (W.held writer.new))) }
{
    let script = match read_compiled(alloc, reader) {
        Ok(script) => script,
        Err(refusal) => return Err(refusal),
    };
    let report = match run_script::<Brand, L>(alloc, &script, cluster, form, memory, watcher) {
        Ok(report) => report,
        Err(refusal) => return Err(refusal),
    };
    watcher.close();
    match put_all(writer, report.text.as_bytes()) {
        Ok(()) => Ok(report.status),
        Err(failure) => Err(CommandRefusal::Failed(failure)),
    }
}
