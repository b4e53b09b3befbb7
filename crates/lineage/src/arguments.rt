// What an object is made from.

ghost use Rattle.std.specs.Prelude.{◌≡◌, IfOk, MatchOption, Some, None};
ghost use Rattle.task_spec.specs.Dereferenced.{dereferenced_in};
ghost use Rattle.protocol.specs.Recovery.{made_from, task_for};
ghost use Rattle.protocol.specs.Steps.{own_object};

use crate::tables::task_by;
use held::SharedBirth;
use ids::ObjectId;
use number_lists::object_at_number;
use protocol_data::{OwnTask, WorkerContext};
use sequence::Seq;
use std::alloc::{AllocError, Global};
use task_spec::dereferenced;
use worker_steps::convert;

/// The ids that a task's worker dereferences.
fn ids_read(alloc: Global, spec: &SharedBirth) -> Result<Seq<ObjectId>, AllocError>
    ensures { IfOk result (λ ids. ids ≡ dereferenced_in spec.now) }
{
    let found = dereferenced(&spec.inner, alloc)?;
    Ok(convert(found))
}

/// The task that makes the own object of that serial.
pub fn task_for(here: &WorkerContext, serial: u64) -> Option<&OwnTask>
    ensures { MatchOption result (task_for here.now (own_object here.now serial) ≡ None)
        (λ task. task_for here.now (own_object here.now serial) ≡ Some task.now) }
{
    let objects = &here.worker.objects;
    let Some(found) = object_at_number(objects, serial) else {
        return None;
    };
    task_by(objects, &found.source)
}

/// The ids that the task which makes the own object of that serial dereferences before its body; none where no task makes it.
pub fn made_from(
    alloc: Global,
    here: &WorkerContext,
    serial: u64,
) -> Result<Seq<ObjectId>, AllocError>
    ensures { IfOk result (λ ids. ids ≡ made_from here.now serial) }
{
    match task_for(here, serial) {
        None => Ok(Seq::new(alloc)),
        Some(task) => ids_read(alloc, &task.spec),
    }
}
