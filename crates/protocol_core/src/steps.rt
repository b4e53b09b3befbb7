// What each event makes of a run's state, and how it is answered.

ghost use Rattle.std.specs.Prelude.{◌≡◌, ◌≤◌, false, true, IfOk, IfSome, OnOk, OnErr};
ghost use Rattle.step_laws.specs.Cursors.{IsAtFirst};
ghost use Rattle.segment.specs.Jobs.{IsTrueOf};
ghost use Rattle.protocol_core.specs.Limits.{Limits};
ghost use Rattle.protocol_core.specs.Meant.{IsSoundLog};
ghost use Rattle.protocol_core.specs.Owed.{Pays};
ghost use Rattle.protocol_core.specs.Own.{GivesOwn, IsOwn};
ghost use Rattle.protocol_core.specs.States.{IsSoundRun};
ghost use Rattle.protocol_core.specs.Steps.{Answers, AnswersAsShown, Applies, Follows, RunsOut, reply_of};
ghost use Rattle.protocol_core.specs.Views.{state_of};

use crate::cursor::cursor_behind;
use crate::handed::hand_in;
use crate::reply::Reply;
use crate::state::State;
use event_answers::{Verdict, answer};
use log_entries::{Entry, Event, Refusal};
use meaning_laws::law::{legal_logs_read_as_serial, main_begins_the_serial_run};
use protocol_data::CommitInput;
use protocol_laws::law::{
    claims_give_good_jobs, claims_give_jobs_of_the_log, event_keeps_sound, jobs_stay_of_the_log,
    refusals_are_as_shown, runs_are_good, runs_have_the_logs_answers, sound_is_legal,
};
use segment::{Done, Job, ScriptName};
use std::alloc::{AllocError, Global};

/// An event that found no memory.
#[cold]
#[inline(never)]
fn run_out<S: ScriptName>(state: &mut State) -> Reply<S>
    ensures { RunsOut (state_of state.old) (state_of state.new) (reply_of result) }
{
    state.halt();
    Reply::Refused(Refusal::NoMemory)
}

/// One event. On an error the log is as it was.
fn try_step<S: ScriptName>(
    alloc: Global,
    state: &mut State,
    event: Event,
    seat: u8,
    done: Option<Done<S>>,
    is_own: bool,
) -> Result<Reply<S>, AllocError>
    requires kept { IsSoundRun S.script (state_of state.old) }
    requires goes_on { state.old.is_halted ≡ false }
    requires own { is_own ≡ true → IsOwn state.old.log done }
    ensures applied { IfOk result (λ told. Applies (state_of state.old) event seat done (state_of state.new) (reply_of told)) }
    ensures kept { OnOk result (IsSoundRun S.script (state_of state.new)) }
    ensures own { IfOk result (λ told. GivesOwn state.new.log (reply_of told)) }
    ensures same { OnErr result (state.new.log ≡ state.old.log) }
    ensures nodes { state.new.first_nodes ≡ state.old.first_nodes }
    ensures is_true { IfSome done (λ d. IsTrueOf S.script d) }
{
    event_keeps_sound();
    claims_give_good_jobs();
    claims_give_jobs_of_the_log();
    jobs_stay_of_the_log();
    runs_are_good();
    runs_have_the_logs_answers();
    sound_is_legal();
    let mut handed = CommitInput::Nothing;
    hand_in(alloc, &state.whole, &event, done, is_own, &mut handed)?;
    let verdict = answer(
        alloc,
        &mut state.whole,
        &mut state.here,
        &event,
        &mut handed,
    )?;
    state.add(Entry::In { event, seat })?;
    match verdict {
        Verdict::Refused(refusal) => Ok(Reply::Refused(refusal)),
        Verdict::Taken(None) => Ok(Reply::Ok),
        Verdict::Taken(Some(job)) => Ok(Reply::Job(Job::new(job.inner))),
    }
}

/// One event; where no memory is found the run halts.
fn taken<S: ScriptName>(
    alloc: Global,
    state: &mut State,
    event: Event,
    seat: u8,
    done: Option<Done<S>>,
    is_own: bool,
) -> Reply<S>
    requires kept { IsSoundRun S.script (state_of state.old) }
    requires goes_on { state.old.is_halted ≡ false }
    requires own { is_own ≡ true → IsOwn state.old.log done }
    ensures follows { Follows (state_of state.old) event seat done (state_of state.new) (reply_of result) }
    ensures kept { IsSoundRun S.script (state_of state.new) }
    ensures own { GivesOwn state.new.log (reply_of result) }
    ensures is_true { IfSome done (λ d. IsTrueOf S.script d) }
{
    match try_step(alloc, state, event, seat, done, is_own) {
        Ok(told) => told,
        Err(_) => run_out(state),
    }
}

/// One event, with what was done on its job, if it is a commit; with `is_own` that is a job of this run. The cursor goes on behind it.
pub fn step<S: ScriptName>(
    alloc: Global,
    state: &mut State,
    cursor: &mut usize,
    event: Event,
    seat: u8,
    done: Option<Done<S>>,
    is_own: bool,
) -> Reply<S>
    requires kept { IsSoundRun S.script (state_of state.old) }
    requires own { is_own ≡ true → IsOwn state.old.log done }
    requires first { IsAtFirst cursor.old state.old.whole.delivered }
    ensures answers { Answers (state_of state.old) event seat done (state_of state.new) (reply_of result) }
    ensures own { GivesOwn state.new.log (reply_of result) }
    ensures meant { IsSoundLog S.script (state_of state.new) }
    ensures shown { AnswersAsShown S.script (state_of state.old) event done (state_of state.new) (reply_of result) }
    ensures paid { Pays S.script (state_of state.old) event seat done (state_of state.new) (reply_of result) }
    ensures limited { Limits S.script (state_of state.old) event seat done (state_of state.new) (reply_of result) }
    ensures kept { IsSoundRun S.script (state_of state.new) }
    ensures first { IsAtFirst cursor.new state.new.whole.delivered }
    ensures on { state.new.is_halted ≡ false → cursor.old ≤ cursor.new }
{
    refusals_are_as_shown();
    legal_logs_read_as_serial();
    main_begins_the_serial_run();
    if state.is_halted {
        return Reply::Refused(Refusal::Halted);
    }
    let told = taken(alloc, state, event, seat, done, is_own);
    *cursor = cursor_behind(state, *cursor);
    told
}
