// The command `faults`: a run replayed again and again, each time with one fault more, and a table of what came of it.

ghost use Rattle.std.specs.Prelude.{◌≡◌, ◌⊎◌, IfOk, IfErr, string_bytes, IsErrOf};
ghost use Rattle.script_check.specs.Trees.{script_of};
ghost use Rattle.script_commands.specs.Scripts.{IsUnwritten};
ghost use Rattle.run_commands.specs.Faults.{AreFaultsIn, AreFaultsOf, AreFaultsTold, AreFaultsBegun};
ghost use Rattle.run_commands.specs.SimReports.{ExplainsSim, IfBoth, IsStopOf};

use crate::event_lines::EventLines;
use crate::replay_inputs::read_replay_inputs;
use crate::replays::replayed;
use fault_lists::{
    FaultChoice, Tried, attempts_in, events_in, fault_lists, status_of_all, table_text,
};
use fault_runs::{Cluster, TrialWatcher, try_lists};
use log_entries::{Entry, Event};
use raysim_streams::{CommandRefusal, Sink, Source, put_all};
use segment::{Compiled, ScriptName};
use sequence::Seq;
use std::alloc::Global;
use std::marker::Brand;

/// What was tried: the events of the run without a fault, and each list with what came of it, in the order in which they were tried. `status` is what the
/// program ends with.
#[derive(Drop)]
pub struct TriedFaults {
    /// The events of the run without a fault.
    pub events: Seq<Event>,
    /// Each list with what came of it, in the order in which they were tried.
    pub tried: Seq<Tried>,
    /// What the program ends with.
    pub status: u8,
}

/// The same, with the table of it.
#[derive(Drop)]
struct ToldFaults {
    faults: TriedFaults,
    table: String,
}

/// Tries the lists of a log's events.
fn try_faults<S: ScriptName, L: TrialWatcher>(
    alloc: Global,
    script: &Compiled,
    log: &[Entry],
    cluster: Cluster,
    choice: FaultChoice,
    most: usize,
    watcher: &mut L,
) -> Result<ToldFaults, CommandRefusal>
    requires { script_of script.now ≡ S.script }
    ensures told { IfOk result (λ told. AreFaultsIn (script_of script.now) cluster choice most log.now told.faults (string_bytes told.table)) }
    ensures only { IfErr result (λ refusal. refusal ≡ CommandRefusal.NoMemory) }
{
    let history = events_in(alloc, log)?;
    let lists = fault_lists(alloc, log, u32::from(cluster.nodes()), choice, most)?;
    let first = lists.first.as_slice();
    let Ok(tried) = try_lists::<S, L>(alloc, script, cluster, history.as_slice(), first, watcher)
    else {
        return Err(CommandRefusal::NoMemory);
    };
    let table = table_text(alloc, lists.count, attempts_in(log), tried.as_slice())?;
    let status = status_of_all(tried.as_slice());
    Ok(ToldFaults {
        faults: TriedFaults {
            events: history,
            tried,
            status,
        },
        table,
    })
}

/// Tries the lists of the run of a script by these lines.
fn try_script<S: ScriptName, L: TrialWatcher>(
    alloc: Global,
    script: &Compiled,
    events: &EventLines,
    cluster: Cluster,
    choice: FaultChoice,
    most: usize,
    watcher: &mut L,
) -> Result<ToldFaults, CommandRefusal>
    requires { script_of script.now ≡ S.script }
    ensures told { IfOk result (λ told. AreFaultsOf (script_of script.now) cluster choice most events.now.says
        told.faults (string_bytes told.table)) }
    ensures stopped { IfErr result (IsStopOf (script_of script.now) cluster events.now.says events.now.numbers) }
{
    let replay = match replayed::<S>(alloc, script, events, cluster) {
        Ok(replay) => replay,
        Err(refusal) => return Err(refusal),
    };
    let log = replay.board().log();
    let told = try_faults::<S, L>(alloc, script, log, cluster, choice, most, watcher);
    drop(replay);
    told
}

/// Reads a script's text and then an event file of either format, applies the file's events to a run of the script on this cluster, and then replays the
/// history of that run on the same cluster again and again, each time with one fault more (docs/faults.md): a fault of each kind that is chosen at each
/// place of the history, `most` lists at most. Writes the table of what came of them, and answers the lists. The status is 0 where no fault kept main
/// from ending as the serial run does, but for the death of main's own worker; else 2.
///
/// Else the refusal says why, as for `sim`, of the run without a fault. After a failed write a beginning of the table is out; before any other refusal
/// nothing is written. The watcher is told behind each list, and changes nothing.
pub fn faults<R: Source, E: Source, W: Sink, L: TrialWatcher>(
    alloc: Global,
    reader: &mut R,
    events: &mut E,
    cluster: Cluster,
    choice: FaultChoice,
    most: usize,
    writer: &mut W,
    watcher: &mut L,
) -> Result<TriedFaults, CommandRefusal>
    ensures told { IfOk result (λ faults. IfBoth (R.left reader.old) (E.left events.old) (λ text file.
        AreFaultsTold cluster choice most text file faults (W.held writer.old) (W.held writer.new))) }
    ensures refused { IfErr result (λ refusal. ExplainsSim cluster (R.left reader.old) (E.left events.old)
        (R.failures reader.old, R.failures reader.new) (E.failures events.old, E.failures events.new) (W.failures writer.old, W.failures writer.new) refusal) }
    ensures memory { IsErrOf result CommandRefusal.NoMemory →
        (R.failures reader.new ≡ R.failures reader.old) × (E.failures events.new ≡ E.failures events.old)
        × (W.failures writer.new ≡ W.failures writer.old) }
    ensures unwritten { IfErr result (λ refusal. IsUnwritten refusal → W.held writer.new ≡ W.held writer.old) }
    ensures beginning { IfErr result (λ refusal. IfBoth (R.left reader.old) (E.left events.old) (λ text file.
        (W.held writer.new ≡ W.held writer.old) ⊎ AreFaultsBegun cluster choice most text file (W.held writer.old) (W.held writer.new))) }
{
    let inputs = match read_replay_inputs(alloc, reader, events) {
        Ok(inputs) => inputs,
        Err(refusal) => return Err(refusal),
    };
    let told = match try_script::<Brand, L>(
        alloc,
        &inputs.script,
        &inputs.events,
        cluster,
        choice,
        most,
        watcher,
    ) {
        Ok(told) => told,
        Err(refusal) => return Err(refusal),
    };
    match put_all(writer, told.table.as_bytes()) {
        Ok(()) => Ok(told.faults),
        Err(failure) => Err(CommandRefusal::Failed(failure)),
    }
}
