// A script's run on threads, in memory: what it is told and what it would write.

ghost use Rattle.std.specs.Prelude.{◌≡◌, ◌≤◌, ℕ, List, false, IfOk, IfErr, string_bytes};
ghost use Rattle.script_check.specs.Trees.{script_of};
ghost use Rattle.event_files.specs.declared.plan.PlanLine.{PlanLine};
ghost use Rattle.run_commands.specs.of_protocol_board.Cores.{Size};
ghost use Rattle.replay_laws.specs.of_seats.Ends.{IsAtLimit};
ghost use Rattle.replay_laws.specs.of_seats.Held.{AreOutside};
ghost use Rattle.replay_laws.specs.of_seats.Seated.{AreFrom};
ghost use Rattle.raysim_commands.specs.ThreadReports.{AreOutputs, IsRunOn, IsStop};

use event_files::{RunPlan, history};
use log_entries::Refusal as EventRefusal;
use raysim_streams::CommandRefusal;
use replay_laws::law::runs_replay;
use replay_laws::{Ended, Gate, run_on_threads};
use run_commands::{Board, Cluster, Core, Form, report};
use segment::{Compiled, ScriptName};
use sequence::Seq;
use std::alloc::{AllocError, Global};
use std::rt::Clock;
use std::sync::Wait;
use std::thread::Threads;

/// What a run on threads writes, and the status that it ends with.
#[derive(Drop)]
pub struct Outputs {
    /// The events that were applied, as an event file of format 2.
    pub history: String,
    /// What is written of the run, in the form that was asked for.
    pub report: String,
    /// The status by main's end: 0, 1 or 2.
    pub status: u8,
}

/// What is written of a run that is over, where messages aren't told by their events, nor events by lines of a file.
fn outputs_of<S: ScriptName>(
    alloc: Global,
    board: &Board<S>,
    form: Form,
) -> Result<Outputs, AllocError>
    ensures { IfOk result (λ out. AreOutputs S.script board.now form (string_bytes out.report) (string_bytes out.history) out.status) }
{
    let history = history(alloc, board.log())?;
    let unknown = Seq::new(alloc);
    let report = report(alloc, board, &unknown, &unknown, form)?;
    let status = board.status();
    Ok(Outputs {
        history,
        report,
        status,
    })
}

/// What is written of a run that is over, which is let go of.
fn outputs_behind<S: ScriptName>(
    alloc: Global,
    board: Board<S>,
    form: Form,
) -> Result<Outputs, AllocError>
    ensures { IfOk result (λ out. AreOutputs S.script board form (string_bytes out.report) (string_bytes out.history) out.status) }
{
    let outputs = outputs_of(alloc, &board, form);
    drop(board);
    outputs
}

/// The refusal of a run that is at a limit.
fn at_limit<S: ScriptName>(board: &Board<S>) -> CommandRefusal
    ensures { (plan : List PlanLine) (size : Size) (threads : ℕ) → IsAtLimit S.script false plan size board.now → AreFrom threads board.now.log →
        IsStop S.script plan size threads result }
{
    let _ = board.log();
    CommandRefusal::Stopped {
        code: EventRefusal::Limit.number(),
    }
}

/// Runs a script on this cluster beside the plan.
pub fn run_script<S: ScriptName + Send + Sync, K: Gate + Sync, R: Threads + Wait + Clock + Sync>(
    rt: &R,
    alloc: Global,
    script: &Compiled,
    plan: RunPlan,
    cluster: Cluster,
    form: Form,
    threads: u8,
    gate: &K,
) -> Result<Outputs, CommandRefusal>
    requires some { (1 ≤ threads) × (threads ≤ 8) }
    requires script { script_of script.now ≡ S.script }
    requires outside { AreOutside plan.lines }
    ensures run { IfOk result (λ out.
        IsRunOn S.script plan.lines cluster threads form (string_bytes out.report) (string_bytes out.history) out.status) }
    ensures stopped { IfErr result (IsStop S.script plan.lines cluster threads) }
{
    runs_replay();
    let _ = script.script().functions();
    let _ = cluster.nodes();
    let core = Core::<S>::new(alloc, script.script(), cluster)?;
    let board = Board::new(core);
    match run_on_threads(rt, alloc, board, plan, threads, script, gate)? {
        Ended::Over(board) => Ok(outputs_behind(alloc, board, form)?),
        Ended::AtLimit(board) => {
            let refusal = at_limit(&board);
            drop(board);
            Err(refusal)
        }
        Ended::NoMemory => Err(CommandRefusal::NoMemory),
    }
}
