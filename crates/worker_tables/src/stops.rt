// How an owner is told that an attempt of its task stopped.

ghost use Rattle.std.specs.Prelude.{◌≡◌, OnErr, OnOk, IfOk, Some, map};
ghost use Rattle.contexts.specs.Emptied.{nothing_here};
ghost use Rattle.contexts.specs.of_protocol.Runs.{ended_result, tells_stop};
ghost use Rattle.contexts.specs.of_protocol_data.declared.tables.Execution.{Execution};

use crate::basics::say;
use crate::contents::{ids_in_content, if_small};
use contexts::or_nothing;
use contexts::protocol_data::{EndedResult, Message, Phase, SmallList, WorkerContext};
use held::SharedContent;
use std::alloc::{AllocError, Global};

/// What is told of a result with that content: the ids in it, and itself if it is small.
fn ended_result(alloc: Global, content: &SharedContent) -> Result<EndedResult, AllocError>
    ensures { IfOk result (λ r. r ≡ ended_result content.now) }
{
    let ids = ids_in_content(alloc, content)?;
    let kept = if_small(alloc, content)?;
    Ok(EndedResult { ids, kept })
}

/// What is told of results with these contents.
fn ended_results(
    alloc: Global,
    contents: &SmallList<SharedContent>,
) -> Result<SmallList<EndedResult>, AllocError>
    ensures { IfOk result (λ rs. rs ≡ map ended_result contents.now) }
{
    let mut results = SmallList::new(alloc);
    for content in contents.as_slice() {
        results.push(ended_result(alloc, content)?)?;
    }
    Ok(results)
}

/// The owner is told how the attempt stopped.
pub fn tell_stop(alloc: Global, here: &mut WorkerContext) -> Result<(), AllocError>
    ensures done { (run : Execution) → here.old.worker.run ≡ Some run → OnOk result (here.new ≡ tells_stop here.old run run.phase) }
    ensures err { OnErr result (here.new ≡ nothing_here) }
{
    let Some(run) = &here.worker.run else {
        return Ok(());
    };
    let attempt = run.attempt;
    let owner = attempt.owner();
    match &run.phase {
        Phase::HasEnded(contents) => {
            let results = or_nothing(ended_results(alloc, contents), here)?;
            let node = here.worker.node;
            say(here, owner, Message::Finished(attempt, node, results))
        }
        Phase::HasFaulted(fault) => {
            let fault = *fault;
            say(here, owner, Message::Failed(attempt, fault))
        }
        Phase::Ready => Ok(()),
        Phase::Out(_) => Ok(()),
        Phase::Waits(..) => Ok(()),
    }
}
