// Lists, tried one after the other.

ghost use Rattle.std.specs.Prelude.{◌≡◌, IfOk};
ghost use Rattle.script_check.specs.Trees.{script_of};
ghost use Rattle.fault_runs.specs.Replays.{AreTried, IsTried, end_or_stop};

use crate::replayed::replay_lines;
use fault_lists::{FaultList, RunEnd, Tried, attempts_in, end_of, event_lines, event_list};
use log_entries::{Entry, Event};
use protocol_board::Cluster;
use run_watch::Unwatched;
use segment::{Compiled, NoMemory, ScriptName};
use sequence::Seq;
use std::alloc::Global;

/// What looks on while lists are tried.
pub trait TrialWatcher {
    /// So many of so many lists were tried.
    fn tried(&mut self, count: usize, all: usize);
}

impl TrialWatcher for Unwatched {
    fn tried(&mut self, _count: usize, _all: usize) {}
}

/// How a run ended, by its log and whether it was stopped.
fn end_or_stop(is_stopped: bool, log: &[Entry]) -> RunEnd
    ensures { result ≡ end_or_stop is_stopped log.now }
{
    if is_stopped {
        return RunEnd::Stopped;
    }
    end_of(log)
}

/// Replays one list of the history's events.
fn try_list<S: ScriptName>(
    alloc: Global,
    script: &Compiled,
    cluster: Cluster,
    events: &[Event],
    list: FaultList,
) -> Result<Tried, NoMemory>
    requires { script_of script.now ≡ S.script }
    ensures tried { IfOk result (IsTried S.script cluster events.now) }
    ensures list { IfOk result (λ tried. tried.list ≡ list) }
{
    let Ok(all) = event_list(alloc, events, &list) else {
        return Err(NoMemory);
    };
    let Ok(lines) = event_lines(alloc, all.as_slice()) else {
        return Err(NoMemory);
    };
    let run = replay_lines::<S>(alloc, script, cluster, &lines)?;
    let log = run.replay.board().log();
    let end = end_or_stop(run.is_stopped, log);
    let attempts = attempts_in(log);
    drop(run);
    Ok(Tried {
        list,
        end,
        attempts,
    })
}

/// Replays each list of the history's events, on a run of the script that begins on the cluster, one after the other, and answers of each how main ended
/// and how many attempts there were. The watcher is told behind each list, and changes nothing. The only error is want of memory, and nothing is answered then.
pub fn try_lists<S: ScriptName, L: TrialWatcher>(
    alloc: Global,
    script: &Compiled,
    cluster: Cluster,
    events: &[Event],
    lists: &[FaultList],
    watcher: &mut L,
) -> Result<Seq<Tried>, NoMemory>
    requires { script_of script.now ≡ S.script }
    ensures { IfOk result (AreTried S.script cluster events.now lists.now) }
{
    let mut all = Seq::new(alloc);
    for list in lists {
        let tried = try_list::<S>(alloc, script, cluster, events, *list)?;
        let Ok(()) = all.push(tried) else {
            return Err(NoMemory);
        };
        watcher.tried(all.len(), lists.len());
    }
    Ok(all)
}
