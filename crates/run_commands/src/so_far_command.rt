// A run up to where it stops.

ghost use Rattle.std.specs.Prelude.{◌≡◌, false, IfOk, IfErr, OnOk, string_bytes};
ghost use Rattle.script_check.specs.Trees.{script_of};
ghost use Rattle.fault_runs.specs.of_protocol_board.Views.{course_of};
ghost use Rattle.script_commands.specs.Scripts.{ExplainsText};
ghost use Rattle.fault_runs.specs.of_protocol_board.Replays.{is_no_memory};
ghost use Rattle.run_commands.specs.SoFar.{ExplainsTexts, IsDriven, IsReplaySoFar, IsReplayToldOf, IsRunSoFar, IsRunToldOf};

use crate::event_lines::{EventLines, event_lines};
use crate::form::Form;
use crate::replays::replayed_so_far;
use crate::telling::{SoFar, told, told_replay};
use fault_runs::{Board, Cluster, Core, drive, is_no_memory};
use log_entries::Refusal;
use raysim_streams::CommandRefusal;
use run_watch::Unwatched;
use script_commands::compiled_script;
use segment::{Compiled, ScriptName};
use sequence::Seq;
use std::alloc::Global;
use std::marker::Brand;

/// A run that was stopped is told as far as it went, unless it was stopped for want of memory.
fn but_for_memory(refusal: Refusal) -> Result<(), CommandRefusal>
    ensures stopped { OnOk result (is_no_memory refusal ≡ false) }
    ensures only { IfErr result (λ refusal. refusal ≡ CommandRefusal.NoMemory) }
{
    if is_no_memory(refusal) {
        return Err(CommandRefusal::NoMemory);
    }
    Ok(())
}

/// Drives the run until nothing is left to do, or to where it stops; it fails for want of memory alone.
pub fn drive_so_far<S: ScriptName>(
    alloc: Global,
    board: &mut Board<S>,
    sent: &mut Seq<usize>,
    script: &Compiled,
) -> Result<(), CommandRefusal>
    requires { script_of script.now ≡ S.script }
    ensures driven { OnOk result (IsDriven S.script (course_of board.old sent.old) (course_of board.new sent.new)) }
    ensures only { IfErr result (λ refusal. refusal ≡ CommandRefusal.NoMemory) }
{
    match drive(alloc, board, sent, script, &mut Unwatched) {
        Ok(()) => Ok(()),
        Err(refusal) => but_for_memory(refusal),
    }
}

/// What is written of a script's run, which is driven so far.
fn run_script<S: ScriptName>(
    alloc: Global,
    script: &Compiled,
    cluster: Cluster,
    form: Form,
) -> Result<SoFar, CommandRefusal>
    requires { script_of script.now ≡ S.script }
    ensures told { IfOk result (λ so_far. IsRunSoFar (script_of script.now) cluster form (string_bytes so_far.text) so_far.status) }
    ensures only { IfErr result (λ refusal. refusal ≡ CommandRefusal.NoMemory) }
{
    let core = match Core::<S>::new(alloc, script.script(), cluster) {
        Ok(core) => core,
        Err(_) => return Err(CommandRefusal::NoMemory),
    };
    let mut board = Board::new(core);
    let mut sent = Seq::new(alloc);
    if let Err(refusal) = drive_so_far(alloc, &mut board, &mut sent, script) {
        drop(board);
        return Err(refusal);
    }
    let nowhere = Seq::new(alloc);
    let told = told(alloc, &board, &sent, &nowhere, form);
    drop(board);
    told
}

/// What is written of the run of a script as `run` drives it, up to its end, or to the event that is refused (at a limit, 37), which is then the
/// last that is told of.
///
/// Else the refusal says why: `At` where the text is no script that the rules allow, or `NoMemory`.
pub fn run_so_far(
    alloc: Global,
    text: &[u8],
    cluster: Cluster,
    form: Form,
) -> Result<SoFar, CommandRefusal>
    ensures told { IfOk result (λ so_far. IsRunToldOf cluster form text.now (string_bytes so_far.text) so_far.status) }
    ensures refused { IfErr result (ExplainsText text.now) }
{
    let script = match compiled_script(alloc, text) {
        Ok(script) => script,
        Err(refusal) => return Err(refusal),
    };
    run_script::<Brand>(alloc, &script, cluster, form)
}

/// What is written of the run of a script by these lines, so far.
fn sim_script<S: ScriptName>(
    alloc: Global,
    script: &Compiled,
    events: &EventLines,
    cluster: Cluster,
    form: Form,
) -> Result<SoFar, CommandRefusal>
    requires { script_of script.now ≡ S.script }
    ensures told { IfOk result (λ so_far. IsReplaySoFar (script_of script.now) cluster form events.now.says events.now.numbers
        (string_bytes so_far.text) so_far.status) }
    ensures only { IfErr result (λ refusal. refusal ≡ CommandRefusal.NoMemory) }
{
    let replay = match replayed_so_far::<S>(alloc, script, &events.says, cluster) {
        Ok(replay) => replay,
        Err(refusal) => return Err(refusal),
    };
    let told = told_replay(alloc, &replay, &events.numbers, form);
    drop(replay);
    told
}

/// What is written of the replay of a list of events as `sim` does it, up to its end, or to where it stops (41, or 42).
///
/// Else the refusal says why: `At` where the text is no script that the rules allow, `BadLine` where a line of the list is none of an event file, or
/// `NoMemory`. The script is checked before the list is read.
pub fn sim_so_far(
    alloc: Global,
    text: &[u8],
    events: &[u8],
    cluster: Cluster,
    form: Form,
) -> Result<SoFar, CommandRefusal>
    ensures told { IfOk result (λ so_far. IsReplayToldOf cluster form text.now events.now (string_bytes so_far.text) so_far.status) }
    ensures refused { IfErr result (ExplainsTexts text.now events.now) }
{
    let script = match compiled_script(alloc, text) {
        Ok(script) => script,
        Err(refusal) => return Err(refusal),
    };
    let found = match event_lines(alloc, events) {
        Ok(found) => found,
        Err(refusal) => return Err(refusal),
    };
    sim_script::<Brand>(alloc, &script, &found, cluster, form)
}
