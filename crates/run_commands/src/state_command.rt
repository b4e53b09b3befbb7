// The state of a run behind one of its events.

ghost use Rattle.std.specs.Prelude.{◌≡◌, ◌⊎◌, IfOk, IfErr, map, string_bytes, take, IsErrOf};
ghost use Rattle.script_check.specs.Trees.{script_of};
ghost use Rattle.fault_runs.specs.of_protocol_board.Cores.{IsSoundLog};
ghost use Rattle.script_commands.specs.Scripts.{IsUnwritten};
ghost use Rattle.run_commands.specs.SimReports.{ExplainsSim, IfBoth, IsStopOf};
ghost use Rattle.run_commands.specs.States.{IsBehind, IsStateBegun, IsStateNow, IsStateOf, IsStateTold, event_line, first_events};

use crate::event_lines::EventLines;
use crate::replay_inputs::read_replay_inputs;
use crate::replays::replayed;
use crate::telling::SoFar;
use event_files::Line;
use fault_lists::events_in;
use fault_runs::{Board, Cluster, replay_lines};
use log_entries::{Entry, Event};
use raysim_streams::{CommandRefusal, Sink, Source, put_all};
use segment::{Compiled, ScriptName};
use sequence::Seq;
use state_text::{event_count, state_text};
use std::alloc::{AllocError, Global};
use std::marker::Brand;

/// So many of the events from the first on, or all where there are fewer.
fn first_events(events: &[Event], most: usize) -> &[Event]
    ensures { result.now ≡ take most events.now }
{
    if most >= events.len() {
        return events;
    }
    &events[..most]
}

/// The events as lines of an event file.
fn lines_of(alloc: Global, events: &[Event]) -> Result<Seq<Line>, AllocError>
    ensures { IfOk result (λ all. all ≡ map event_line events.now) }
{
    let mut all = Seq::new(alloc);
    for event in events {
        all.push(Line::Event(*event))?;
    }
    Ok(all)
}

/// The first events of a log, so many at most, as lines of an event file.
fn first_lines(alloc: Global, log: &[Entry], most: usize) -> Result<Seq<Line>, AllocError>
    ensures { IfOk result (λ all. all ≡ first_events most log.now) }
{
    let history = events_in(alloc, log)?;
    lines_of(alloc, first_events(history.as_slice(), most))
}

/// What is alive in the run as it is, beside so many events in all, and the status of main's end.
fn state_now<S: ScriptName>(
    alloc: Global,
    board: &Board<S>,
    all: usize,
) -> Result<SoFar, CommandRefusal>
    ensures told { IfOk result (λ told. IsStateNow board.now all (string_bytes told.text) told.status) }
    ensures only { IfErr result (λ refusal. refusal ≡ CommandRefusal.NoMemory) }
    ensures meant { IsSoundLog S.script board.now }
{
    match state_text(alloc, board.log(), board.whole(), all) {
        Ok(text) => Ok(SoFar {
            text,
            status: board.status(),
        }),
        Err(_) => Err(CommandRefusal::NoMemory),
    }
}

/// The state behind the event of that number of a log. Its events are played once more on a run of the script, up to that one.
fn state_behind<S: ScriptName>(
    alloc: Global,
    script: &Compiled,
    log: &[Entry],
    cluster: Cluster,
    at: usize,
) -> Result<SoFar, CommandRefusal>
    requires { script_of script.now ≡ S.script }
    ensures told { IfOk result (λ told. IsBehind (script_of script.now) cluster at log.now (string_bytes told.text) told.status) }
    ensures only { IfErr result (λ refusal. refusal ≡ CommandRefusal.NoMemory) }
{
    let Ok(lines) = first_lines(alloc, log, at) else {
        return Err(CommandRefusal::NoMemory);
    };
    match replay_lines::<S>(alloc, script, cluster, &lines) {
        Ok(run) => {
            let told = state_now(alloc, run.replay.board(), event_count(log));
            drop(run);
            told
        }
        Err(_) => Err(CommandRefusal::NoMemory),
    }
}

/// The same of the run of a script by these lines.
fn state_script<S: ScriptName>(
    alloc: Global,
    script: &Compiled,
    events: &EventLines,
    cluster: Cluster,
    at: usize,
) -> Result<SoFar, CommandRefusal>
    requires { script_of script.now ≡ S.script }
    ensures told { IfOk result (λ told. IsStateOf (script_of script.now) cluster at events.now.says (string_bytes told.text) told.status) }
    ensures stopped { IfErr result (IsStopOf (script_of script.now) cluster events.now.says events.now.numbers) }
{
    let replay = match replayed::<S>(alloc, script, events, cluster) {
        Ok(replay) => replay,
        Err(refusal) => return Err(refusal),
    };
    let told = state_behind::<S>(alloc, script, replay.board().log(), cluster, at);
    drop(replay);
    told
}

/// Reads a script's text and then an event file of either format, applies the file's events to a run of the script on this cluster, and writes what
/// was alive behind the event of the number `at` (docs/state.md): events count from 1, refused ones too, as `log` counts them, and where there are
/// fewer, it is what is alive at the list's end. The first line says behind which event that is. The status is the one of `sim` for a list that ends
/// there.
///
/// Else the refusal says why, as for `sim`, of the whole list. After a failed write a beginning is out; before any other refusal nothing is written.
pub fn state<R: Source, E: Source, W: Sink>(
    alloc: Global,
    reader: &mut R,
    events: &mut E,
    cluster: Cluster,
    at: usize,
    writer: &mut W,
) -> Result<u8, CommandRefusal>
    ensures told { IfOk result (λ status. IfBoth (R.left reader.old) (E.left events.old) (λ text file.
        IsStateTold cluster at text file status (W.held writer.old) (W.held writer.new))) }
    ensures refused { IfErr result (λ refusal. ExplainsSim cluster (R.left reader.old) (E.left events.old)
        (R.failures reader.old, R.failures reader.new) (E.failures events.old, E.failures events.new) (W.failures writer.old, W.failures writer.new) refusal) }
    ensures memory { IsErrOf result CommandRefusal.NoMemory →
        (R.failures reader.new ≡ R.failures reader.old) × (E.failures events.new ≡ E.failures events.old)
        × (W.failures writer.new ≡ W.failures writer.old) }
    ensures unwritten { IfErr result (λ refusal. IsUnwritten refusal → W.held writer.new ≡ W.held writer.old) }
    ensures beginning { IfErr result (λ refusal. IfBoth (R.left reader.old) (E.left events.old) (λ text file.
        (W.held writer.new ≡ W.held writer.old) ⊎ IsStateBegun cluster at text file (W.held writer.old) (W.held writer.new))) }
{
    let inputs = match read_replay_inputs(alloc, reader, events) {
        Ok(inputs) => inputs,
        Err(refusal) => return Err(refusal),
    };
    let told = match state_script::<Brand>(alloc, &inputs.script, &inputs.events, cluster, at) {
        Ok(told) => told,
        Err(refusal) => return Err(refusal),
    };
    match put_all(writer, told.text.as_bytes()) {
        Ok(()) => Ok(told.status),
        Err(failure) => Err(CommandRefusal::Failed(failure)),
    }
}
