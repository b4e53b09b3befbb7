// Where in the script the trap of a run comes about.

ghost use Rattle.std.specs.Prelude.{◌≡◌, IfOk, IfErr, string_bytes};
ghost use Rattle.script_check.specs.Trees.{script_of};
ghost use Rattle.script_commands.specs.Scripts.{ExplainsText};
ghost use Rattle.trap_text.specs.Text.{IsTrapTold};
ghost use Rattle.run_commands.specs.SoFar.{ExplainsTexts};
ghost use Rattle.run_commands.specs.TrapReports.{IsReplayTrap, IsReplayTrapOf, IsRunTrap, IsRunTrapOf, trap_asked};

use crate::event_lines::event_lines;
use crate::form::Form;
use crate::replays::replayed_so_far;
use crate::so_far_command::drive_so_far;
use event_files::EventFile;
use fault_runs::{Board, Cluster, Core};
use log_entries::Entry;
use raysim_streams::CommandRefusal;
use script_commands::{PlacedScript, placed_script};
use segment::ScriptName;
use sequence::Seq;
use std::alloc::Global;
use std::marker::Brand;
use trap_text::{TrapAsked, trap_text};

/// Of whose trap it is told below what is written in that form, if it is: below what `why` tells of main, or of an object.
pub fn trap_asked(form: Form) -> Option<TrapAsked>
    ensures { result ≡ trap_asked form }
{
    match form {
        Form::WhyMain(_) => Some(TrapAsked::OfMain),
        Form::Why(_, object) => Some(TrapAsked::Of(object)),
        Form::Text
        | Form::Json
        | Form::TextWithBooks
        | Form::Log(_)
        | Form::LogWithMessages(_)
        | Form::Timeline(_)
        | Form::Lineage(_)
        | Form::TextWithSummary
        | Form::State
        | Form::WhyWorker(_, _)
        | Form::WhyNode(_, _)
        | Form::Limit => None,
    }
}

/// What is told of the trap by a log.
fn told_of(
    alloc: Global,
    placed: &PlacedScript,
    text: &[u8],
    log: &[Entry],
    asked: TrapAsked,
) -> Result<String, CommandRefusal>
    ensures told { IfOk result (λ told. IsTrapTold (script_of placed.now.script) text.now placed.now.places.items log.now asked (string_bytes told)) }
    ensures only { IfErr result (λ refusal. refusal ≡ CommandRefusal.NoMemory) }
{
    let places = placed.places.as_slice();
    match trap_text(alloc, &placed.script, text, places, log, asked) {
        Ok(told) => Ok(told),
        Err(_) => Err(CommandRefusal::NoMemory),
    }
}

/// What is told of the trap of a script's run.
fn run_script<S: ScriptName>(
    alloc: Global,
    placed: &PlacedScript,
    text: &[u8],
    cluster: Cluster,
    asked: TrapAsked,
) -> Result<String, CommandRefusal>
    requires { script_of placed.now.script ≡ S.script }
    ensures told { IfOk result (λ told.
        IsRunTrap (script_of placed.now.script) cluster text.now placed.now.places.items asked (string_bytes told)) }
    ensures only { IfErr result (λ refusal. refusal ≡ CommandRefusal.NoMemory) }
{
    let script = &placed.script;
    let core = match Core::<S>::new(alloc, script.script(), cluster) {
        Ok(core) => core,
        Err(_) => return Err(CommandRefusal::NoMemory),
    };
    let mut board = Board::new(core);
    let mut sent = Seq::new(alloc);
    if let Err(refusal) = drive_so_far(alloc, &mut board, &mut sent, script) {
        drop(board);
        return Err(refusal);
    }
    let told = told_of(alloc, placed, text, board.log(), asked);
    drop(board);
    told
}

/// In which place of the script the trap comes about with which main ended in the run of a script as `run` drives it, or an attempt of an object: the
/// run is driven once more, and then the attempt whose own code trapped is run on the answers that it was handed, which shows the instruction at which
/// it traps, and what that works on. What is told has no line where there was no such trap, or where its attempt began nothing.
///
/// Else the refusal says why: `At` where the text is no script that the rules allow, or `NoMemory`.
pub fn run_trap(
    alloc: Global,
    text: &[u8],
    cluster: Cluster,
    asked: TrapAsked,
) -> Result<String, CommandRefusal>
    ensures told { IfOk result (λ told. IsRunTrapOf cluster text.now asked (string_bytes told)) }
    ensures refused { IfErr result (ExplainsText text.now) }
{
    let placed = match placed_script(alloc, text) {
        Ok(placed) => placed,
        Err(refusal) => return Err(refusal),
    };
    run_script::<Brand>(alloc, &placed, text, cluster, asked)
}

/// What is told of the trap of a script's run by what an event file says.
fn sim_script<S: ScriptName>(
    alloc: Global,
    placed: &PlacedScript,
    text: &[u8],
    says: &EventFile,
    cluster: Cluster,
    asked: TrapAsked,
) -> Result<String, CommandRefusal>
    requires { script_of placed.now.script ≡ S.script }
    ensures told { IfOk result (λ told.
        IsReplayTrap (script_of placed.now.script) cluster text.now placed.now.places.items says.now asked (string_bytes told)) }
    ensures only { IfErr result (λ refusal. refusal ≡ CommandRefusal.NoMemory) }
{
    let replay = match replayed_so_far::<S>(alloc, &placed.script, says, cluster) {
        Ok(replay) => replay,
        Err(refusal) => return Err(refusal),
    };
    let told = told_of(alloc, placed, text, replay.board().log(), asked);
    drop(replay);
    told
}

/// The same of the replay of a list of events as `sim` does it.
///
/// Else the refusal says why: `At` where the text is no script that the rules allow, `BadLine` where a line of the list is none of an event file, or
/// `NoMemory`. The script is checked before the list is read.
pub fn sim_trap(
    alloc: Global,
    text: &[u8],
    events: &[u8],
    cluster: Cluster,
    asked: TrapAsked,
) -> Result<String, CommandRefusal>
    ensures told { IfOk result (λ told. IsReplayTrapOf cluster text.now events.now asked (string_bytes told)) }
    ensures refused { IfErr result (ExplainsTexts text.now events.now) }
{
    let placed = match placed_script(alloc, text) {
        Ok(placed) => placed,
        Err(refusal) => return Err(refusal),
    };
    let found = match event_lines(alloc, events) {
        Ok(found) => found,
        Err(refusal) => return Err(refusal),
    };
    sim_script::<Brand>(alloc, &placed, text, &found.says, cluster, asked)
}
