// The entries of a commit: births, prints, and the end.

ghost use Rattle.std.specs.Prelude.{◌≡◌, ◌++◌, ◌∷◌, [], IfOk, OnErr, OnOk, map};
ghost use Rattle.worker_steps.specs.of_contexts.Emptied.{nothing_here};
ghost use Rattle.event_log.specs.Entries as logged;
ghost use Rattle.event_log.specs.Commits.{commit_entries};
ghost use Rattle.protocol.specs.Jobs.{stop_of};
ghost use Rattle.protocol.specs.Steps.{logs_all};
ghost use Rattle.commit_steps.specs.Logged.{born, ended};

use held::{Printed, SharedBirth};
use ids::{AttemptId, ObjectId};
use log_entries::Entry;
use owner_steps::id_behind;
use protocol_data::{Outcomes, Stopped, WorkerContext, copy_contents};
use sequence::Seq;
use std::alloc::{AllocError, Global};
use worker_steps::{log, or_nothing, results_of};

/// Logs the births, which take ids from `first` on, one a result.
#[tactic(auto, using(crate::proofs::LogLaws::next_born, crate::proofs::LogLaws::none_logged))]
fn log_births(
    alloc: Global,
    here: &mut WorkerContext,
    attempt: AttemptId,
    first: ObjectId,
    births: &[SharedBirth],
) -> Result<(), AllocError>
    ensures done { OnOk result (here.new ≡ logs_all here.old (born attempt first births.now)) }
    ensures err { OnErr result (here.new ≡ nothing_here) }
{
    let mut object = first;
    for spec in births {
        let birth = or_nothing(spec.copy(alloc), here)?;
        log(
            here,
            Entry::Born {
                object,
                attempt,
                birth,
            },
        )?;
        object = or_nothing(id_behind(alloc, object, results_of(spec)), here)?;
    }
    Ok(())
}

/// Adds an entry for each print, in order.
#[tactic(auto, using(crate::proofs::LogLaws::one_logged, crate::proofs::LogLaws::none_logged))]
fn log_prints(alloc: Global, here: &mut WorkerContext, prints: &[Printed]) -> Result<(), AllocError>
    ensures done { OnOk result (here.new ≡ logs_all here.old (map logged.Printed prints.now)) }
    ensures err { OnErr result (here.new ≡ nothing_here) }
{
    for value in prints {
        let value = or_nothing(value.copy(alloc), here)?;
        log(here, Entry::Printed(value))?;
    }
    Ok(())
}

/// Logs the end, if there is one.
#[tactic(auto, using(crate::proofs::LogLaws::none_logged))]
fn log_end(
    alloc: Global,
    here: &mut WorkerContext,
    attempt: AttemptId,
    stop: &Stopped,
) -> Result<(), AllocError>
    ensures done { OnOk result (here.new ≡ logs_all here.old (ended attempt stop.now)) }
    ensures err { OnErr result (here.new ≡ nothing_here) }
{
    match stop {
        Stopped::AtGet(_) => Ok(()),
        Stopped::AtEnd(contents) => {
            let contents = or_nothing(copy_contents(contents, alloc), here)?;
            log(here, Entry::Ended { attempt, contents })
        }
    }
}

/// Logs what was done on a job.
#[tactic(auto, using(crate::proofs::LogLaws::all_logged))]
pub fn log_outcomes(
    alloc: Global,
    here: &mut WorkerContext,
    attempt: AttemptId,
    first: ObjectId,
    outcomes: &Outcomes,
) -> Result<(), AllocError>
    ensures done { OnOk result
        (here.new ≡ logs_all here.old (commit_entries attempt first outcomes.now.births outcomes.now.prints (stop_of outcomes.now.stop))) }
    ensures err { OnErr result (here.new ≡ nothing_here) }
{
    log_births(alloc, here, attempt, first, outcomes.births.as_slice())?;
    log_prints(alloc, here, outcomes.prints.as_slice())?;
    log_end(alloc, here, attempt, &outcomes.stop)
}
