// The command `run` on threads: a script run beside a plan, its history and its report.

ghost use Rattle.std.specs.Prelude.{◌≡◌, ◌≤◌, IfOk, IfErr, IsErrOf};
ghost use Rattle.script_commands.specs.Scripts.{IsUnwritten};
ghost use Rattle.run_commands.specs.SimReports.{IfBoth};
ghost use Rattle.raysim_commands.specs.ThreadReports.{AreWritten, AreUnwritten, ExplainsThreads, IsBegun};

use crate::thread_inputs::{Inputs, read_inputs};
use crate::thread_outputs::write_outputs;
use crate::thread_run::run_script;
use raysim_streams::{CommandRefusal, Sink, Source};
use replay_laws::Gate;
use run_commands::{Cluster, Form};
use std::alloc::Global;
use std::marker::Brand;
use std::rt::Clock;
use std::sync::Wait;
use std::thread::Threads;

/// Reads a script's text and then a plan, runs the script on this cluster on 1 to 8 threads beside the plan (docs/protocol.md, "Turns"), and
/// writes the history of the run, as an event file of format 2, and then its report (docs/runs.md, "The report"), or what else the form asks for of it. On
/// threads nobody counts the messages behind each event, and no event has a line in a file: a form that tells of these tells of none. The gate is told of
/// each job before it is run. Replayed by `sim` on the same cluster, the history gives the same report, if it has at most 100,000 events. The status is 0
/// where main ends with a value, 1 where it ends with a trap, and 2 where it is open or has a fault.
///
/// Else the refusal says why: `At` where the text is no script that the rules allow, `BadLine` where a line is none of a plan, `Stopped` with
/// 37 where the run was given up at a limit, `NoMemory`, or `Failed` where a read or a write failed within the call. The script is read and
/// checked before the plan is read. After a failed write a beginning of the history is out, or the history and a beginning of the report;
/// before any other refusal nothing is written.
pub fn run_threaded<
    A: Source,
    P: Source,
    H: Sink,
    W: Sink,
    K: Gate + Sync,
    R: Threads + Wait + Clock + Sync,
>(
    rt: &R,
    alloc: Global,
    reader: &mut A,
    plan: &mut P,
    cluster: Cluster,
    form: Form,
    threads: u8,
    gate: &K,
    history: &mut H,
    writer: &mut W,
) -> Result<u8, CommandRefusal>
    requires some { (1 ≤ threads) × (threads ≤ 8) }
    ensures reported { IfOk result (λ status. IfBoth (A.left reader.old) (P.left plan.old) (λ text bytes. AreWritten cluster threads form text bytes status
        (H.held history.old) (H.held history.new) (W.held writer.old) (W.held writer.new))) }
    ensures refused { IfErr result (λ refusal. ExplainsThreads cluster threads (A.left reader.old) (P.left plan.old)
        (A.failures reader.old, A.failures reader.new) (P.failures plan.old, P.failures plan.new)
        (H.failures history.old, H.failures history.new) (W.failures writer.old, W.failures writer.new) refusal) }
    ensures memory { IsErrOf result CommandRefusal.NoMemory → (A.failures reader.new ≡ A.failures reader.old) × (P.failures plan.new ≡ P.failures plan.old)
        × (H.failures history.new ≡ H.failures history.old) × (W.failures writer.new ≡ W.failures writer.old) }
    ensures unwritten { IfErr result (λ refusal. IsUnwritten refusal →
        AreUnwritten (H.held history.old) (H.held history.new) (W.held writer.old) (W.held writer.new)) }
    ensures beginning { IfErr result (λ refusal. IfBoth (A.left reader.old) (P.left plan.old) (λ text bytes. IsBegun cluster threads form text bytes
        (H.held history.old) (H.held history.new) (W.held writer.old) (W.held writer.new))) }
{
    let Inputs {
        script,
        plan: lines,
    } = match read_inputs(alloc, reader, plan) {
        Ok(inputs) => inputs,
        Err(refusal) => return Err(refusal),
    };
    let out = match run_script::<Brand, K, R>(
        rt, alloc, &script, lines, cluster, form, threads, gate,
    ) {
        Ok(out) => out,
        Err(refusal) => return Err(refusal),
    };
    match write_outputs(history, writer, &out) {
        Ok(()) => Ok(out.status),
        Err(refusal) => Err(refusal),
    }
}
