// The command `sim`: a script's run by a list of events, and its report.

ghost use Rattle.std.specs.Prelude.{◌≡◌, ◌⊎◌, IfOk, IfErr, string_bytes, IsErrOf};
ghost use Rattle.script_check.specs.Trees.{script_of};
ghost use Rattle.script_commands.specs.Scripts.{IsUnwritten};
ghost use Rattle.run_commands.specs.SimReports.{ExplainsSim, IfBoth, IsSimBegun, IsSimReported, IsSimReportOf, IsStopOf};

use crate::event_lines::EventLines;
use crate::form::Form;
use crate::replay_inputs::read_replay_inputs;
use crate::replays::replayed;
use crate::run_memory::{RunMemory, leave};
use crate::telling::{SoFar, told_replay};
use fault_runs::Cluster;
use raysim_streams::{CommandRefusal, Sink, Source, put_all};
use segment::{Compiled, ScriptName};
use std::alloc::Global;
use std::marker::Brand;

/// What is written of the run of a script by these lines.
fn sim_script<S: ScriptName>(
    alloc: Global,
    script: &Compiled,
    events: &EventLines,
    cluster: Cluster,
    form: Form,
    memory: RunMemory,
) -> Result<SoFar, CommandRefusal>
    requires { script_of script.now ≡ S.script }
    ensures reported { IfOk result (λ report. IsSimReportOf (script_of script.now) cluster form events.now.says events.now.numbers
        (string_bytes report.text) report.status) }
    ensures stopped { IfErr result (IsStopOf (script_of script.now) cluster events.now.says events.now.numbers) }
{
    let replay = match replayed::<S>(alloc, script, events, cluster) {
        Ok(replay) => replay,
        Err(refusal) => return Err(refusal),
    };
    let told = told_replay(alloc, &replay, &events.numbers, form);
    leave(replay, memory);
    told
}

/// Reads a script's text and then an event file of either format, applies the file's events to a run of the script on this cluster, and writes
/// the run's report (docs/runs.md, "The report"), or what else the form asks for of it. The status is 0 where main ends with a value, 1 where it
/// ends with a trap, and 2 where it is open or has a fault.
///
/// Else the refusal says why: `At` where the text is no script that the rules allow, `BadLine` where a line is none of an event file,
/// `Stopped` with 41 where the events are more than 100,000, `WrongJob` where a claim gave another job than its line of a recorded history
/// says, `NoMemory`, or `Failed` where a read or a write failed within the call. The script is read and checked before the events are read,
/// and these are read whole before the first is applied. After a failed write a beginning of the report is out; before any other refusal
/// nothing is written. What the run took in memory is given back, or left to the end of the process, as is asked.
pub fn sim<R: Source, E: Source, W: Sink>(
    alloc: Global,
    reader: &mut R,
    events: &mut E,
    cluster: Cluster,
    form: Form,
    memory: RunMemory,
    writer: &mut W,
) -> Result<u8, CommandRefusal>
    ensures reported { IfOk result (λ status. IfBoth (R.left reader.old) (E.left events.old) (λ text file.
        IsSimReported cluster form text file status (W.held writer.old) (W.held writer.new))) }
    ensures refused { IfErr result (λ refusal. ExplainsSim cluster (R.left reader.old) (E.left events.old)
        (R.failures reader.old, R.failures reader.new) (E.failures events.old, E.failures events.new) (W.failures writer.old, W.failures writer.new) refusal) }
    ensures memory { IsErrOf result CommandRefusal.NoMemory →
        (R.failures reader.new ≡ R.failures reader.old) × (E.failures events.new ≡ E.failures events.old)
        × (W.failures writer.new ≡ W.failures writer.old) }
    ensures unwritten { IfErr result (λ refusal. IsUnwritten refusal → W.held writer.new ≡ W.held writer.old) }
    ensures beginning { IfErr result (λ refusal. IfBoth (R.left reader.old) (E.left events.old) (λ text file.
        (W.held writer.new ≡ W.held writer.old) ⊎ IsSimBegun cluster form text file (W.held writer.old) (W.held writer.new))) }
{
    let inputs = match read_replay_inputs(alloc, reader, events) {
        Ok(inputs) => inputs,
        Err(refusal) => return Err(refusal),
    };
    let report = match sim_script::<Brand>(
        alloc,
        &inputs.script,
        &inputs.events,
        cluster,
        form,
        memory,
    ) {
        Ok(report) => report,
        Err(refusal) => return Err(refusal),
    };
    match put_all(writer, report.text.as_bytes()) {
        Ok(()) => Ok(report.status),
        Err(failure) => Err(CommandRefusal::Failed(failure)),
    }
}
