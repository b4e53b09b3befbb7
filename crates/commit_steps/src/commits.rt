// A commit: what a job came to.

ghost use Rattle.std.specs.Prelude.{◌≡◌, ◌+◌, ◌++◌, IfOk, OnErr, OnOk, Some, None, is_some, true};
ghost use Rattle.worker_steps.specs.of_contexts.Emptied.{nothing_here};
ghost use Rattle.protocol.specs.Steps.{with_phase, with_run};
ghost use Rattle.protocol.specs.Tables.{HasEnded, Out};
ghost use Rattle.protocol.specs.Commits.{asks_where, claim_step, commit_step, ends, keeps_content, keeps_contents, needs, rests_if_waiting, stops, with_outcomes};
ghost use Rattle.protocol_data.specs.declared.tables.Execution.{Execution};
ghost use Rattle.values.specs.Values.{content_of};
ghost use Rattle.commit_steps.specs.Plain.{ArePlain, IsPlain};

use crate::births::{bear_all, next_id};
use crate::logged::log_outcomes;
use held::{Births, Printed, Prints, SharedBirth, SharedContent};
use ids::{AttemptId, ObjectId};
use object_store::put_end;
use owner_steps::{id_behind, need_own};
use protocol_data::{Execution, Message, Outcomes, Phase, Stopped, WorkerContext, copy_contents};
use sequence::Seq;
use small_list::SmallList;
use std::alloc::{AllocError, Global};
use std::mem;
use values::{Content, Fault, FaultKind, RunValue};
use worker_steps::{
    fault, give_slot_back, hold_ids, ids_in_content, is_own, is_waiting_for, knows_dead,
    leave_if_free, or_nothing, pass_on, say, set_phase,
};

// ---- stops

/// The location of the object is looked for.
fn ask_where(alloc: Global, here: &mut WorkerContext, object: ObjectId) -> Result<(), AllocError>
    ensures done { OnOk result (here.new ≡ asks_where here.old object) }
    ensures err { OnErr result (here.new ≡ nothing_here) }
{
    if is_own(here, object) {
        return need_own(alloc, here, object);
    }
    if knows_dead(&here.worker, object.owner) {
        let kind = FaultKind::OwnerDied;
        return fault(alloc, here, Fault { kind, object });
    }
    say(here, object.owner, Message::Where(object))
}

/// Unless it was answered at once, the attempt gives its slot back.
fn rest_if_waiting(
    alloc: Global,
    here: &mut WorkerContext,
    object: ObjectId,
) -> Result<(), AllocError>
    ensures done { OnOk result (here.new ≡ rests_if_waiting here.old object) }
    ensures err { OnErr result (here.new ≡ nothing_here) }
{
    if is_waiting_for(&here.worker, object) {
        return give_slot_back(alloc, here);
    }
    Ok(())
}

/// The attempt needs an object: it waits, unless it is answered at once.
fn need(alloc: Global, here: &mut WorkerContext, object: ObjectId) -> Result<(), AllocError>
    ensures done { (run : Execution) → here.old.worker.run ≡ Some run → OnOk result (here.new ≡ needs here.old run object) }
    ensures err { OnErr result (here.new ≡ nothing_here) }
{
    set_phase(here, Phase::Waits(object, None));
    ask_where(alloc, here, object)?;
    rest_if_waiting(alloc, here, object)
}

/// The content of the object by the attempt of that number goes into the node's store, unless it is small, and the object holds the ids in it.
fn keep_content(
    alloc: Global,
    here: &mut WorkerContext,
    object: ObjectId,
    number: u32,
    content: &SharedContent,
) -> Result<(), AllocError>
    ensures done { OnOk result (here.new ≡ keeps_content here.old object number content.now) }
    ensures err { OnErr result (here.new ≡ nothing_here) }
{
    let ids = or_nothing(ids_in_content(alloc, content), here)?;
    let stored = or_nothing(content.copy(alloc), here)?;
    let put = put_end(&mut here.there.node.store, object, number, stored);
    or_nothing(put, here)?;
    pass_on(here, object, &ids)?;
    hold_ids(here, object, &ids)
}

/// So each of these, which are of the object and of those behind it.
#[tactic(auto, using(crate::proofs::Contents::first_kept))]
fn keep_contents(
    alloc: Global,
    here: &mut WorkerContext,
    object: ObjectId,
    number: u32,
    contents: &[SharedContent],
) -> Result<(), AllocError>
    ensures done { OnOk result (here.new ≡ keeps_contents here.old object number contents.now) }
    ensures err { OnErr result (here.new ≡ nothing_here) }
{
    for i in 0..contents.len() {
        let result = or_nothing(id_behind(alloc, object, i as u64), here)?;
        keep_content(alloc, here, result, number, &contents[i])?;
    }
    Ok(())
}

/// Whether the content goes into no store, and has no ids in it.
#[tactic(auto, using(crate::proofs::Contents::trap_is_plain, crate::proofs::Contents::number_is_plain))]
fn is_plain(content: &Content) -> bool
    ensures { result ≡ true → IsPlain (content_of content.now) }
{
    match content {
        Content::Trap(_) => true,
        Content::Value(RunValue::Int(_)) => true,
        Content::Value(_) => false,
    }
}

/// Whether there is one content, and that is so.
#[tactic(auto, using(crate::proofs::Contents::one_is_all))]
fn are_plain(contents: &[SharedContent]) -> bool
    ensures { result ≡ true → ArePlain contents.now }
{
    if contents.len() != 1 {
        return false;
    }
    let content = &contents[0];
    is_plain(&content.inner)
}

/// The attempt ends with plain contents, of which nothing is kept but by the attempt: it takes the list as it is.
#[inline(always)]
#[tactic(auto, using(crate::proofs::Contents::plain_kept))]
fn end_plainly(alloc: Global, here: &mut WorkerContext, contents: &mut SmallList<SharedContent>)
    requires { ArePlain contents.old }
    ensures { (run : Execution) → here.old.worker.run ≡ Some run →
        here.new ≡ keeps_contents (with_phase here.old run (HasEnded contents.old)) run.attempt.object run.attempt.number contents.old }
{
    let kept = mem::replace(contents, SmallList::new(alloc));
    set_phase(here, Phase::HasEnded(kept));
}

/// The attempt ends with these contents, each of which its object keeps.
fn end_keeping(
    alloc: Global,
    here: &mut WorkerContext,
    attempt: AttemptId,
    contents: &SmallList<SharedContent>,
) -> Result<(), AllocError>
    ensures done { (run : Execution) → here.old.worker.run ≡ Some run → run.attempt ≡ attempt → OnOk result
        (here.new ≡ keeps_contents (with_phase here.old run (HasEnded contents.now)) run.attempt.object run.attempt.number contents.now) }
    ensures err { OnErr result (here.new ≡ nothing_here) }
{
    let kept = or_nothing(copy_contents(contents, alloc), here)?;
    set_phase(here, Phase::HasEnded(kept));
    keep_contents(
        alloc,
        here,
        attempt.object,
        attempt.number,
        contents.as_slice(),
    )
}

/// The attempt has ended with these contents, and each object has its own.
fn set_ended(
    alloc: Global,
    here: &mut WorkerContext,
    contents: &mut SmallList<SharedContent>,
) -> Result<(), AllocError>
    ensures done { (run : Execution) → here.old.worker.run ≡ Some run → OnOk result
        (here.new ≡ keeps_contents (with_phase here.old run (HasEnded contents.old)) run.attempt.object run.attempt.number contents.old) }
    ensures err { OnErr result (here.new ≡ nothing_here) }
{
    let Some(run) = &here.worker.run else {
        return Ok(());
    };
    let attempt = run.attempt;
    if are_plain(contents.as_slice()) {
        end_plainly(alloc, here, contents);
        return Ok(());
    }
    end_keeping(alloc, here, attempt, contents)
}

/// The attempt ends, with a content for each result.
fn end(
    alloc: Global,
    here: &mut WorkerContext,
    contents: &mut SmallList<SharedContent>,
) -> Result<(), AllocError>
    ensures done { (run : Execution) → here.old.worker.run ≡ Some run → OnOk result (here.new ≡ ends here.old run contents.old) }
    ensures err { OnErr result (here.new ≡ nothing_here) }
{
    set_ended(alloc, here, contents)?;
    leave_if_free(alloc, here)?;
    give_slot_back(alloc, here)
}

/// The attempt stops there.
fn stop(alloc: Global, here: &mut WorkerContext, stop: &mut Stopped) -> Result<(), AllocError>
    ensures done { OnOk result (here.new ≡ stops here.old stop.old) }
    ensures err { OnErr result (here.new ≡ nothing_here) }
{
    if here.worker.run.is_none() {
        return Ok(());
    }
    match stop {
        Stopped::AtGet(object) => need(alloc, here, *object),
        Stopped::AtEnd(contents) => end(alloc, here, contents),
    }
}

// ---- the commit

/// Adds copies of the births.
fn add_births(alloc: Global, births: &mut Births, more: &Seq<SharedBirth>) -> Result<(), AllocError>
    ensures { OnOk result (births.new ≡ births.old ++ more.now) }
{
    for birth in &more.items {
        births.push(alloc, birth.copy(alloc)?)?;
    }
    Ok(())
}

/// Adds copies of the prints.
fn add_prints(alloc: Global, prints: &mut Prints, more: &Seq<Printed>) -> Result<(), AllocError>
    ensures { OnOk result (prints.new ≡ prints.old ++ more.now) }
{
    for value in &more.items {
        prints.push(alloc, value.copy(alloc)?)?;
    }
    Ok(())
}

/// What was done is added to what the attempt did, which is ready then.
#[inline(always)]
fn add_all(alloc: Global, run: &mut Execution, outcomes: &Outcomes) -> Result<(), AllocError>
    ensures { OnOk result (run.new ≡ with_outcomes run.old outcomes.now) }
{
    add_births(alloc, &mut run.births, &outcomes.births)?;
    add_prints(alloc, &mut run.prints, &outcomes.prints)?;
    run.phase = Phase::Ready;
    Ok(())
}

/// The same, of the worker's attempt.
fn add_outcomes(
    alloc: Global,
    here: &mut WorkerContext,
    outcomes: &Outcomes,
) -> Result<(), AllocError>
    ensures done { (run : Execution) → here.old.worker.run ≡ Some run → OnOk result (here.new ≡ with_run here.old (with_outcomes run outcomes.now)) }
    ensures err { OnErr result (here.new ≡ nothing_here) }
{
    if let Some(run) = &mut here.worker.run {
        let came = add_all(alloc, run, outcomes);
        return or_nothing(came, here);
    }
    Ok(())
}

/// What was done on the attempt's job is committed. Its births, prints and end are logged; each birth enters the table, holds the ids in it, and
/// is stored or asked for; then the attempt waits for what it needs, unless it is answered at once, or stores each content with which it ends,
/// unless that is small. Contents that nobody else keeps are taken out of what was done.
pub fn commit_step(
    alloc: Global,
    here: &mut WorkerContext,
    outcomes: &mut Outcomes,
) -> Result<(), AllocError>
    ensures done { OnOk result (here.new ≡ commit_step here.old outcomes.old) }
    ensures err { OnErr result (here.new ≡ nothing_here) }
    ensures asked { OnErr result (is_some here.old.worker.run ≡ true) }
{
    let Some(run) = &here.worker.run else {
        return Ok(());
    };
    let attempt = run.attempt;
    let first = next_id(here);
    add_outcomes(alloc, here, outcomes)?;
    log_outcomes(alloc, here, attempt, first, outcomes)?;
    bear_all(alloc, here, attempt, &outcomes.births)?;
    stop(alloc, here, &mut outcomes.stop)
}

/// The worker's attempt is given out as that job; nothing but its phase changes.
pub fn claim_step(here: &mut WorkerContext, job: u64)
    ensures { here.new ≡ claim_step here.old job }
{
    if here.worker.run.is_some() {
        set_phase(here, Phase::Out(job));
    }
}
