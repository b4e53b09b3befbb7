// Replays of what an event file says.

ghost use Rattle.std.specs.Prelude.{◌≡◌, false, IfOk, IfErr, OnOk};
ghost use Rattle.script_check.specs.Trees.{script_of};
ghost use Rattle.fault_runs.specs.of_protocol_board.Replays.{from_first};
ghost use Rattle.run_commands.specs.SimReports.{IsReplayed, IsStopOf, stop_refusal};
ghost use Rattle.run_commands.specs.SoFar.{IsPlayed, IsReplayedSoFar, replay_lacks_memory};

use crate::event_lines::{EventLines, number_of};
use event_files::EventFile;
use fault_runs::{Cluster, Core, Replay, ReplayStop};
use raysim_streams::CommandRefusal;
use segment::{Compiled, ScriptName};
use std::alloc::Global;

/// Why a replay that stopped in that line gives nothing.
fn stop_refusal(stopped: ReplayStop, line: usize) -> CommandRefusal
    ensures { result ≡ stop_refusal stopped line }
{
    match stopped {
        ReplayStop::NoMemory => CommandRefusal::NoMemory,
        ReplayStop::TooLong => CommandRefusal::Stopped { code: 41 },
        ReplayStop::WrongJob => CommandRefusal::WrongJob { line: line as u64 },
    }
}

/// The run of a script by these lines, all of which were played.
pub fn replayed<S: ScriptName>(
    alloc: Global,
    script: &Compiled,
    events: &EventLines,
    cluster: Cluster,
) -> Result<Replay<S>, CommandRefusal>
    requires { script_of script.now ≡ S.script }
    ensures replayed { IfOk result (IsReplayed (script_of script.now) cluster events.now.says) }
    ensures stopped { IfErr result (IsStopOf (script_of script.now) cluster events.now.says events.now.numbers) }
{
    let core = match Core::<S>::new(alloc, script.script(), cluster) {
        Ok(core) => core,
        Err(_) => return Err(CommandRefusal::NoMemory),
    };
    let mut replay = Replay::new(alloc, core);
    match replay.play_file(alloc, script, &events.says) {
        Ok(()) => {
            // This says what the log means.
            let _ = replay.board().log();
            Ok(replay)
        }
        Err(stopped) => {
            let refusal = stop_refusal(stopped, number_of(&events.numbers, replay.begun()));
            drop(replay);
            Err(refusal)
        }
    }
}

/// A replay that was stopped is told as far as it went, unless it was stopped for want of memory.
fn replay_but_for_memory(stop: ReplayStop) -> Result<(), CommandRefusal>
    ensures stopped { OnOk result (replay_lacks_memory stop ≡ false) }
    ensures only { IfErr result (λ refusal. refusal ≡ CommandRefusal.NoMemory) }
{
    match stop {
        ReplayStop::NoMemory => Err(CommandRefusal::NoMemory),
        ReplayStop::TooLong | ReplayStop::WrongJob => Ok(()),
    }
}

/// Plays what the file says, or up to where the replay stops; it fails for want of memory alone.
fn play_so_far<S: ScriptName>(
    alloc: Global,
    replay: &mut Replay<S>,
    script: &Compiled,
    says: &EventFile,
) -> Result<(), CommandRefusal>
    requires { script_of script.now ≡ S.script }
    ensures played { OnOk result (IsPlayed S.script says.now (from_first replay.old) replay.new) }
    ensures only { IfErr result (λ refusal. refusal ≡ CommandRefusal.NoMemory) }
{
    match replay.play_file(alloc, script, says) {
        Ok(()) => Ok(()),
        Err(stop) => replay_but_for_memory(stop),
    }
}

/// The run of a script by what the file says, up to its end or to where the replay stops.
pub fn replayed_so_far<S: ScriptName>(
    alloc: Global,
    script: &Compiled,
    says: &EventFile,
    cluster: Cluster,
) -> Result<Replay<S>, CommandRefusal>
    requires { script_of script.now ≡ S.script }
    ensures replayed { IfOk result (IsReplayedSoFar (script_of script.now) cluster says.now) }
    ensures only { IfErr result (λ refusal. refusal ≡ CommandRefusal.NoMemory) }
{
    let core = match Core::<S>::new(alloc, script.script(), cluster) {
        Ok(core) => core,
        Err(_) => return Err(CommandRefusal::NoMemory),
    };
    let mut replay = Replay::new(alloc, core);
    if let Err(refusal) = play_so_far(alloc, &mut replay, script, says) {
        drop(replay);
        return Err(refusal);
    }
    // This says what the log means.
    let _ = replay.board().log();
    Ok(replay)
}
