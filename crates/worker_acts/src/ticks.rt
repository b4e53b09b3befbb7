// A tick: the worker sends again what it waits for.

ghost use Rattle.std.specs.Prelude.{◌≡◌, ◌+◌, ◌-◌, OnErr, OnOk, Some, None, false, is_some, true};
ghost use Rattle.protocol.specs.Sets.{is_empty};
ghost use Rattle.worker_acts.specs.Concerned.{has_to_send};
ghost use Rattle.worker_steps.specs.of_contexts.Emptied.{nothing_here};
ghost use Rattle.protocol.specs.Tables.{task_of};
ghost use Rattle.protocol.specs.Steps.{own_object};
ghost use Rattle.protocol.specs.Ticks.{asks_again, sends_holds, sends_run, sends_stop, sends_task, sends_tasks, tick_step};
ghost use Rattle.protocol_data.specs.declared.tables.Execution.{Execution};

use death_steps::is_unheard;
use ids::{AttemptId, ObjectId};
use number_lists::object_at_number;
use protocol_data::{Holding, Message, ObjectSource, Phase, Progress, SmallList, WorkerContext};
use std::alloc::{AllocError, Global};
use worker_steps::{is_own, or_nothing, say, say_to_node, tell_stop};

/// Of a pending task, its Ask or its Push is sent again.
fn send_task(alloc: Global, here: &mut WorkerContext, serial: u64) -> Result<(), AllocError>
    ensures done { OnOk result (here.new ≡ sends_task here.old serial (task_of (own_object here.old serial))) }
    ensures err { OnErr result (here.new ≡ nothing_here) }
{
    let Some(found) = object_at_number(&here.worker.objects, serial) else {
        return Ok(());
    };
    let ObjectSource::ByTask(task) = &found.source else {
        return Ok(());
    };
    let owner = here.me;
    let object = ObjectId { owner, serial };
    let number = task.number;
    let attempt = AttemptId { object, number };
    match &task.progress {
        Progress::AtRest => Ok(()),
        Progress::AskedAt(t, node) => {
            let t = *t;
            let node = *node;
            say_to_node(here, node, Message::Ask(attempt, t))
        }
        Progress::RunsOn(worker, _) => {
            let worker = *worker;
            let spec = or_nothing(task.spec.copy(alloc), here)?;
            say(here, worker, Message::Push(attempt, spec))
        }
    }
}

/// Of each pending task, in birth order.
#[tactic(auto, using(worker_steps::proofs::EachLaws::each_step, worker_steps::proofs::EachLaws::each_last))]
fn send_tasks(alloc: Global, here: &mut WorkerContext) -> Result<(), AllocError>
    ensures done { OnOk result (here.new ≡ sends_tasks here.old) }
    ensures err { OnErr result (here.new ≡ nothing_here) }
    ensures asked { OnErr result (is_empty here.old.worker.objects ≡ false) }
{
    let count = here.worker.objects.len() as u64;
    for place in 0..count {
        send_task(alloc, here, place + 1)?;
    }
    Ok(())
}

/// What the own attempt asked for is asked for again.
fn ask_again(here: &mut WorkerContext) -> Result<(), AllocError>
    ensures done { (run : Execution) → here.old.worker.run ≡ Some run → OnOk result (here.new ≡ asks_again here.old run.phase) }
    ensures err { OnErr result (here.new ≡ nothing_here) }
{
    let Some(run) = &here.worker.run else {
        return Ok(());
    };
    let Phase::Waits(object, fetching) = &run.phase else {
        return Ok(());
    };
    let object = *object;
    if let Some(fetch) = fetching {
        let number = fetch.number;
        let node = fetch.node;
        return say_to_node(here, node, Message::Fetch(object, number));
    }
    if is_own(here, object) {
        return Ok(());
    }
    say(here, object.owner, Message::Where(object))
}

/// The Holds that wait are sent again.
fn send_holds(here: &mut WorkerContext, holds: &SmallList<Holding>) -> Result<(), AllocError>
    ensures done { OnOk result (here.new ≡ sends_holds here.old holds.now) }
    ensures err { OnErr result (here.new ≡ nothing_here) }
{
    for hold in holds.as_slice() {
        let holder = hold.holder;
        let object = hold.object;
        say(here, object.owner, Message::Hold(holder, object))?;
    }
    Ok(())
}

/// How the attempt stopped is told again, where that wasn't heard.
fn send_stop(alloc: Global, here: &mut WorkerContext) -> Result<(), AllocError>
    ensures done { (run : Execution) → here.old.worker.run ≡ Some run → OnOk result (here.new ≡ sends_stop here.old run) }
    ensures err { OnErr result (here.new ≡ nothing_here) }
{
    let Some(run) = &here.worker.run else {
        return Ok(());
    };
    if is_unheard(run) {
        return tell_stop(alloc, here);
    }
    Ok(())
}

/// The own attempt's Holds that wait are sent again.
fn send_own_holds(alloc: Global, here: &mut WorkerContext) -> Result<(), AllocError>
    ensures done { (run : Execution) → here.old.worker.run ≡ Some run → OnOk result (here.new ≡ sends_holds here.old run.holds) }
    ensures err { OnErr result (here.new ≡ nothing_here) }
{
    let Some(run) = &here.worker.run else {
        return Ok(());
    };
    let holds = or_nothing(run.holds.copy(alloc), here)?;
    send_holds(here, &holds)
}

/// Of the own attempt, all that it waits for, and how it stopped.
fn send_own(alloc: Global, here: &mut WorkerContext) -> Result<(), AllocError>
    ensures done { (run : Execution) → here.old.worker.run ≡ Some run → OnOk result (here.new ≡ sends_run here.old (Some run)) }
    ensures err { OnErr result (here.new ≡ nothing_here) }
{
    ask_again(here)?;
    send_own_holds(alloc, here)?;
    send_stop(alloc, here)
}

/// The same, if there is one.
fn send_run(alloc: Global, here: &mut WorkerContext) -> Result<(), AllocError>
    ensures done { OnOk result (here.new ≡ sends_run here.old here.old.worker.run) }
    ensures err { OnErr result (here.new ≡ nothing_here) }
    ensures asked { OnErr result (is_some here.old.worker.run ≡ true) }
{
    match &here.worker.run {
        None => Ok(()),
        Some(_) => send_own(alloc, here),
    }
}

/// The worker sends again what it waits for: Asks and Pushes of its tasks, what its own attempt asked for, its Holds, and how its attempt
/// stopped.
pub fn tick_step(alloc: Global, here: &mut WorkerContext) -> Result<(), AllocError>
    ensures done { OnOk result (here.new ≡ tick_step here.old) }
    ensures err { OnErr result (here.new ≡ nothing_here) }
    ensures asked { OnErr result (has_to_send here.old ≡ true) }
{
    send_tasks(alloc, here)?;
    send_run(alloc, here)
}
