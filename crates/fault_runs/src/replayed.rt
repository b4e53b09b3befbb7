// One replay of lines on a new run, up to its end or its limit.

ghost use Rattle.std.specs.Prelude.{◌≡◌, IfOk};
ghost use Rattle.script_check.specs.Trees.{script_of};
ghost use Rattle.fault_runs.specs.Replays.{EndsSo};

use event_files::Line;
use protocol_board::{Cluster, Core, Replay, ReplayStop};
use segment::{Compiled, NoMemory, ScriptName};
use sequence::Seq;
use std::alloc::Global;

/// A run to which lines were applied, and whether it was stopped before an event more than it may have.
#[derive(Drop)]
pub struct Replayed<S: ScriptName> {
    /// The run, as far as the lines were applied.
    pub replay: Replay<S>,
    /// Whether an event more than a replay may have was left out.
    pub is_stopped: bool,
}

/// Applies the lines to a run of the script that begins on the cluster: see `Replay::play`. The only error is want of memory, and the run is let go of then.
pub fn replay_lines<S: ScriptName>(
    alloc: Global,
    script: &Compiled,
    cluster: Cluster,
    lines: &Seq<Line>,
) -> Result<Replayed<S>, NoMemory>
    requires { script_of script.now ≡ S.script }
    ensures { IfOk result (λ r. EndsSo S.script cluster lines.now r.replay r.is_stopped) }
{
    let Ok(core) = Core::<S>::new(alloc, script.script(), cluster) else {
        return Err(NoMemory);
    };
    let mut replay = Replay::new(alloc, core);
    match replay.play(alloc, script, lines) {
        Ok(()) => Ok(Replayed {
            replay,
            is_stopped: false,
        }),
        Err(ReplayStop::TooLong) => Ok(Replayed {
            replay,
            is_stopped: true,
        }),
        Err(ReplayStop::NoMemory) => {
            drop(replay);
            Err(NoMemory)
        }
        // No line of format 1 says which job a claim gives.
        Err(ReplayStop::WrongJob) => unreachable!(),
    }
}
