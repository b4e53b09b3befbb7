// What is written of a run, and the status of main's end.

ghost use Rattle.std.specs.Prelude.{◌≡◌, IfOk, IfErr, string_bytes};
ghost use Rattle.fault_runs.specs.of_protocol_board.Cores.{IsSoundLog};
ghost use Rattle.run_commands.specs.SoFar.{IsToldOf, IsToldOfReplay};

use crate::event_lines::lines_in_file;
use crate::form::{Form, report};
use fault_runs::{Board, Replay};
use raysim_streams::CommandRefusal;
use segment::ScriptName;
use sequence::Seq;
use std::alloc::Global;

/// What is written of a run up to its end, or up to where it stops, and the status of main's end there.
#[derive(Drop)]
pub struct SoFar {
    /// What is written of the run, up to its end or to where it stops.
    pub text: String,
    /// The status by main's end, as far as the run went.
    pub status: u8,
}

/// What is written of the run as it is.
pub fn told<S: ScriptName>(
    alloc: Global,
    board: &Board<S>,
    sent: &Seq<usize>,
    lines: &Seq<usize>,
    form: Form,
) -> Result<SoFar, CommandRefusal>
    ensures told { IfOk result (λ so_far. IsToldOf form board.now sent.now lines.now (string_bytes so_far.text) so_far.status) }
    ensures only { IfErr result (λ refusal. refusal ≡ CommandRefusal.NoMemory) }
    ensures meant { IsSoundLog S.script board.now }
{
    match report(alloc, board, sent, lines, form) {
        Ok(text) => Ok(SoFar {
            text,
            status: board.status(),
        }),
        Err(_) => Err(CommandRefusal::NoMemory),
    }
}

/// What is written of the replay as it is, where the lines that were played have these numbers in their file.
pub fn told_replay<S: ScriptName>(
    alloc: Global,
    replay: &Replay<S>,
    numbers: &Seq<usize>,
    form: Form,
) -> Result<SoFar, CommandRefusal>
    ensures told { IfOk result (λ so_far. IsToldOfReplay form numbers.now replay.now (string_bytes so_far.text) so_far.status) }
    ensures only { IfErr result (λ refusal. refusal ≡ CommandRefusal.NoMemory) }
{
    match lines_in_file(alloc, numbers, replay.lines()) {
        Ok(lines) => told(alloc, replay.board(), replay.sent(), &lines, form),
        Err(_) => Err(CommandRefusal::NoMemory),
    }
}
