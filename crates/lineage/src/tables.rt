// What a plan reads of an owner's tables.

ghost use Rattle.std.specs.Prelude.{◌≡◌, ◌<◌, Some, None, true, MatchOption};
ghost use Rattle.protocol.specs.Sets.{retries_in};
ghost use Rattle.protocol.specs.Numbered.{item_at};
ghost use Rattle.protocol.specs.Tables.{first_by, has_content, is_lost, is_nowhere, is_wanted, is_whole, may_try_again, task_by, task_in, task_of};
ghost use Rattle.protocol.specs.Recovery.{is_lost_here};

use held::SharedBirth;
use ids::ObjectId;
use number_lists::object_at_number;
use protocol_data::{Object, ObjectSource, Objects, OwnTask, WorkerContext};
use task_spec::Birth;
use worker_steps::{is_pending, object_at};

/// Whether it has a content, which no fault or release takes from it.
fn is_whole(object: &Object) -> bool
    ensures { result ≡ is_whole object.now }
{
    object.settled.is_some() && object.fault.is_none() && !object.is_released
}

/// Whether no location of a copy of its content is known, and the owner doesn't keep it.
fn is_nowhere(object: &Object) -> bool
    ensures { result ≡ is_nowhere object.now }
{
    object.locations.items.is_empty() && object.kept.is_none()
}

/// Whether its content can't be had, and none is coming: it is one of these objects, of which another may have its task.
pub fn is_lost(objects: &Objects, object: &Object) -> bool
    ensures { result ≡ is_lost objects.now object.now }
{
    is_whole(object) && is_nowhere(object) && !is_pending(objects, object)
}

/// Whether it has no fault, and its content is nowhere: there is none yet, or it is lost.
pub fn is_wanted(object: &Object) -> bool
    ensures { result ≡ is_wanted object.now }
{
    object.fault.is_none() && is_nowhere(object)
}

/// Whether its content can be had, also while a further attempt is under way for the sake of another object of its task.
pub fn has_content(object: &Object) -> bool
    ensures { result ≡ has_content object.now }
{
    is_whole(object) && !is_nowhere(object)
}

/// Whether the own object of that id is lost.
pub fn is_lost_here(here: &WorkerContext, object: ObjectId) -> bool
    ensures { result ≡ is_lost_here here.now object }
{
    match object_at(here, object) {
        None => false,
        Some(found) => is_lost(&here.worker.objects, found),
    }
}

/// The task that stands with an object so made.
fn task_in(source: &ObjectSource) -> Option<&OwnTask>
    ensures { MatchOption result (task_in source.now ≡ None) (λ task. task_in source.now ≡ Some task.now) }
{
    match source {
        ObjectSource::WasPut | ObjectSource::Beside(_) => None,
        ObjectSource::ByTask(task) => Some(task),
    }
}

/// The task that stands with the object of that serial.
fn task_at(objects: &Objects, serial: u64) -> Option<&OwnTask>
    ensures { MatchOption result (task_of (item_at objects.now serial) ≡ None) (λ task. task_of (item_at objects.now serial) ≡ Some task.now) }
{
    let Some(found) = object_at_number(objects, serial) else {
        return None;
    };
    task_in(&found.source)
}

/// The task that makes an object so made, which may stand with another one of these.
pub fn task_by<'a>(objects: &'a Objects, source: &'a ObjectSource) -> Option<&'a OwnTask>
    ensures { MatchOption result (task_by objects.now source.now ≡ None) (λ task. task_by objects.now source.now ≡ Some task.now) }
{
    match source {
        ObjectSource::WasPut => None,
        ObjectSource::ByTask(task) => Some(task),
        ObjectSource::Beside(first) => task_at(objects, *first),
    }
}

/// The serial of the first object of the task that makes the object of that serial; for a put its own.
pub fn first_by(serial: u64, source: &ObjectSource) -> u64
    ensures { result ≡ first_by serial source.now }
{
    match source {
        ObjectSource::WasPut | ObjectSource::ByTask(_) => serial,
        ObjectSource::Beside(first) => *first,
    }
}

/// How many new runs a task allows.
fn retries_in(spec: &SharedBirth) -> u8
    ensures { result ≡ retries_in spec.now }
{
    match &*spec.inner {
        Birth::Put(_) => 0,
        Birth::Task { retries, .. } => *retries,
    }
}

/// Whether the task has retries left. A task has at most 255 of them, so its present attempt has a lower number then.
pub fn may_try_again(task: &OwnTask) -> bool
    ensures answer { result ≡ may_try_again task.now }
    ensures number { may_try_again task.now ≡ true → task.now.number < 255 }
{
    task.number < u32::from(retries_in(&task.spec))
}
