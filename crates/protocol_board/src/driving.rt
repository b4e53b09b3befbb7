// A run that is driven: the settle rule names each event, and each job is run in the turn that gives it out.

ghost use Rattle.std.specs.Prelude.{◌≡◌, IfOk, OnOk, IfErr};
ghost use Rattle.script_check.specs.Trees.{script_of};
ghost use Rattle.log_entries.specs.declared.refusal.Refusal.TheVariants.{NoMemory};
ghost use Rattle.protocol_core.specs.of_protocol_laws.Given.{IsOfLog};
ghost use Rattle.protocol_core.specs.Own.{GivesOwn, IsOwn};
ghost use Rattle.protocol_core.specs.Steps.{Refuses, reply_of};
ghost use Rattle.protocol_board.specs.Drives.{BreaksAfter, BreaksOff, Commits, EndsSo, Goes, IsTaken, StopsSo, Turn};
ghost use Rattle.protocol_board.specs.Own.{FramesAreOwn};
ghost use Rattle.protocol_board.specs.Views.{course_of};

use crate::board::Board;
use kept_frames::Frames;
use log_entries::{Event, Refusal};
use protocol_core::Reply;
use run_watch::Watcher;
use segment::{Compiled, Done, Job, ScriptName};
use sequence::Seq;
use std::alloc::Global;

/// The refusal that is told, if one is.
fn taken<S: ScriptName>(told: Reply<S>) -> Result<(), Refusal>
    ensures taken { OnOk result (IsTaken (reply_of told)) }
    ensures refused { IfErr result (λ refusal. reply_of told ≡ Refuses refusal) }
{
    match told {
        Reply::Job(_) => Ok(()),
        Reply::Ok => Ok(()),
        Reply::Refused(refusal) => Err(refusal),
    }
}

/// One event, with what was done on a job of this run. Where there is no room for how many messages there are behind it, it isn't applied.
#[inline(always)]
fn go<S: ScriptName>(
    alloc: Global,
    board: &mut Board<S>,
    sent: &mut Seq<usize>,
    event: Event,
    done: Option<Done<S>>,
) -> Result<Reply<S>, Refusal>
    requires { IsOwn board.old.log done }
    ensures own { IfOk result (λ told. GivesOwn board.new.log (reply_of told)) }
    ensures goes { IfOk result (λ told. Goes (course_of board.old sent.old) event done (course_of board.new sent.new) (reply_of told)) }
    ensures lacks { IfErr result (λ refusal. (course_of board.new sent.new ≡ course_of board.old sent.old) × (refusal ≡ NoMemory)) }
{
    let place = sent.len();
    let Ok(()) = sent.push(0) else {
        return Err(Refusal::NoMemory);
    };
    let told = board.apply_own(alloc, event, 0, done);
    sent.set(place, board.messages().len());
    Ok(told)
}

/// The job is run, and what was done on it is committed.
#[inline(never)]
fn commit<S: ScriptName>(
    alloc: Global,
    board: &mut Board<S>,
    sent: &mut Seq<usize>,
    script: &Compiled,
    frames: &mut Frames<S>,
    job: Job<S>,
) -> Result<(), Refusal>
    requires script { script_of script.now ≡ S.script }
    requires own { IsOfLog board.old.log job }
    requires frames { FramesAreOwn board.old.log frames.old }
    ensures frames { OnOk result (FramesAreOwn board.new.log frames.new) }
    ensures committed { OnOk result (Commits S.script (course_of board.old sent.old) job (course_of board.new sent.new)) }
    ensures broken { IfErr result (λ refusal. BreaksAfter S.script (course_of board.old sent.old) job (course_of board.new sent.new) refusal) }
{
    let number = job.number();
    let Ok(done) = frames.run(alloc, script, job) else {
        return Err(Refusal::NoMemory);
    };
    match go(alloc, board, sent, Event::Commit(number), Some(done)) {
        Ok(told) => match taken(told) {
            Ok(()) => Ok(()),
            Err(refusal) => Err(refusal),
        },
        Err(refusal) => Err(refusal),
    }
}

/// One turn: the event is applied, and where it gives out a job, that is run, and what was done on it is committed.
#[inline(always)]
fn take_turn<S: ScriptName>(
    alloc: Global,
    board: &mut Board<S>,
    sent: &mut Seq<usize>,
    script: &Compiled,
    frames: &mut Frames<S>,
    event: Event,
) -> Result<(), Refusal>
    requires script { script_of script.now ≡ S.script }
    requires frames { FramesAreOwn board.old.log frames.old }
    ensures frames { OnOk result (FramesAreOwn board.new.log frames.new) }
    ensures taken { OnOk result (Turn S.script (course_of board.old sent.old) event (course_of board.new sent.new)) }
    ensures broken { IfErr result (λ refusal.
        BreaksOff S.script (course_of board.old sent.old) event (course_of board.new sent.new) refusal) }
{
    match go(alloc, board, sent, event, None) {
        Ok(Reply::Job(job)) => match commit(alloc, board, sent, script, frames, job) {
            Ok(()) => Ok(()),
            Err(refusal) => Err(refusal),
        },
        Ok(Reply::Ok) => Ok(()),
        Ok(Reply::Refused(refusal)) => Err(refusal),
        Err(refusal) => Err(refusal),
    }
}

/// Drives the run until the settle rule names no event: turn by turn the event that it names is applied, and where that gives out a job,
/// the job is run, and what was done on it is committed in the same turn. An attempt that waits goes on from its frame. Behind each event,
/// how many messages were sent so far is put at the end of `sent`. The watcher looks on behind each turn, and changes nothing.
///
/// It stops where an event is refused, with that refusal, and where memory runs out while a job runs (`NoMemory`). The log then has what was
/// applied. There is no limit of turns: each adds an event to the log, and a list can't have more items than memory has places.
pub fn drive<S: ScriptName, W: Watcher>(
    alloc: Global,
    board: &mut Board<S>,
    sent: &mut Seq<usize>,
    script: &Compiled,
    watcher: &mut W,
) -> Result<(), Refusal>
    requires { script_of script.now ≡ S.script }
    ensures ends { OnOk result (EndsSo S.script (course_of board.old sent.old) (course_of board.new sent.new)) }
    ensures stops { IfErr result (λ refusal. StopsSo S.script (course_of board.old sent.old) (course_of board.new sent.new) refusal) }
{
    let nobody = Seq::new(alloc);
    let mut frames = Frames::new(alloc);
    while let Some(event) = board.next(&nobody) {
        take_turn(alloc, board, sent, script, &mut frames, event)?;
        watcher.look(board.log());
        // The list grows with each turn, and its length fits: so there is a last turn.
        let _ = sent.len();
    }
    Ok(())
}
