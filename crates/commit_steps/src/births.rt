// New own objects of a commit: puts with their contents, and tasks with an object for each result.

ghost use Rattle.std.specs.Prelude.{◌≡◌, ◌+◌, ◌≤◌, ◌^◌, ◌++◌, ◌∷◌, [], IfOk, OnErr, OnOk, Some, None, false};
ghost use Rattle.worker_steps.specs.of_contexts.Emptied.{nothing_here};
ghost use Rattle.meaning.specs.Values.{Val, results_of};
ghost use Rattle.values.specs.Values.{value_of};
ghost use Rattle.protocol.specs.Numbered.{changed_at};
ghost use Rattle.protocol.specs.Sets.{is_empty, repeated};
ghost use Rattle.protocol.specs.Tables.{Beside, ByTask, new_object, new_task, put_object, with_task};
ghost use Rattle.protocol.specs.Asking.{requests};
ghost use Rattle.protocol.specs.Commits.{bears, bears_all, bears_put, bears_task, next_id_here, with_objects};

use crate::birth_ids::ids_in_birth;
use held::{SharedBirth, SharedContent};
use ids::{AttemptId, NodeId, ObjectId};
use number_lists::row_of;
use object_store::put_primary;
use owner_steps::hold_all;
use protocol_data::{Message, Object, ObjectSource, Objects, OwnTask, Progress, WorkerContext};
use sequence::Seq;
use small_list::SmallList;
use std::alloc::{AllocError, Global};
use task_spec::Birth;
use values::RunValue;
use worker_steps::{hold_ids, or_nothing, say_to_node};

/// The id of the worker's next object.
pub fn next_id(here: &WorkerContext) -> ObjectId
    ensures id { result ≡ next_id_here here.now }
    ensures bound { result.serial ≤ 2 ^ 63 }
{
    let before = here.worker.objects.len() as u64;
    let owner = here.me;
    ObjectId {
        owner,
        serial: before + 1,
    }
}

/// One more own object.
fn add_own(here: &mut WorkerContext, object: Object) -> Result<(), AllocError>
    ensures done { OnOk result (here.new ≡ with_objects here.old (object ∷ [])) }
    ensures err { OnErr result (here.new ≡ nothing_here) }
{
    or_nothing(here.worker.objects.push(object), here)
}

/// What was put has its content at once, on the worker's node.
fn put_object(
    alloc: Global,
    bearer: AttemptId,
    ids: SmallList<ObjectId>,
    node: NodeId,
) -> Result<Object, AllocError>
    ensures { IfOk result (λ x. x ≡ put_object bearer ids node) }
{
    let mut locations = Seq::new(alloc);
    locations.push(node)?;
    let all_locations = locations.copy(alloc)?;
    Ok(Object {
        source: ObjectSource::WasPut,
        bearer,
        settled: Some(0),
        locations,
        all_locations,
        kept: None,
        ids,
        added: SmallList::new(alloc),
        removed: SmallList::new(alloc),
        dead_holder: None,
        fault: None,
        is_released: false,
        askers: SmallList::new(alloc),
    })
}

/// An object of a task that wasn't asked for yet.
fn task_object(
    alloc: Global,
    source: ObjectSource,
    bearer: AttemptId,
    ids: &Seq<ObjectId>,
) -> Result<Object, AllocError>
    ensures { IfOk result (λ x. x ≡ new_object source bearer ids.now) }
{
    let ids = SmallList::of(alloc, ids.as_slice())?;
    Ok(Object {
        source,
        bearer,
        settled: None,
        locations: Seq::new(alloc),
        all_locations: Seq::new(alloc),
        kept: None,
        ids,
        added: SmallList::new(alloc),
        removed: SmallList::new(alloc),
        dead_holder: None,
        fault: None,
        is_released: false,
        askers: SmallList::new(alloc),
    })
}

/// The first object of such a task.
fn add_first(
    alloc: Global,
    here: &mut WorkerContext,
    bearer: AttemptId,
    spec: &SharedBirth,
    ids: &Seq<ObjectId>,
) -> Result<(), AllocError>
    ensures done { OnOk result (here.new ≡ with_objects here.old (new_object (ByTask (new_task spec.now)) bearer ids.now ∷ [])) }
    ensures err { OnErr result (here.new ≡ nothing_here) }
{
    let spec = or_nothing(spec.copy(alloc), here)?;
    let task = OwnTask {
        spec,
        begun: SmallList::new(alloc),
        number: 0,
        progress: Progress::AtRest,
    };
    let made = task_object(alloc, ObjectSource::ByTask(task), bearer, ids);
    let made = or_nothing(made, here)?;
    add_own(here, made)
}

/// So many others, of the task that stands with the object of that serial.
#[tactic(auto, using(crate::proofs::Borne::one_beside, crate::proofs::Borne::all_beside))]
fn add_others(
    alloc: Global,
    here: &mut WorkerContext,
    bearer: AttemptId,
    first: u64,
    others: u8,
    ids: &Seq<ObjectId>,
) -> Result<(), AllocError>
    ensures done { OnOk result (here.new ≡ with_objects here.old (repeated others (new_object (Beside first) bearer ids.now))) }
    ensures err { OnErr result (here.new ≡ nothing_here) }
{
    for turn in 0..others {
        let _ = turn;
        let made = task_object(alloc, ObjectSource::Beside(first), bearer, ids);
        let made = or_nothing(made, here)?;
        add_own(here, made)?;
    }
    Ok(())
}

/// The content that was put.
fn content_put(alloc: Global, value: &RunValue) -> Result<SharedContent, AllocError>
    ensures { IfOk result (λ c. c ≡ Val (value_of value.now)) }
{
    let value = value.copy(alloc)?;
    SharedContent::new(alloc, values::Content::Value(value))
}

/// A value is put.
fn bear_put(
    alloc: Global,
    here: &mut WorkerContext,
    bearer: AttemptId,
    object: ObjectId,
    value: &RunValue,
    ids: &Seq<ObjectId>,
) -> Result<(), AllocError>
    ensures done { OnOk result (here.new ≡ bears_put here.old bearer object (value_of value.now) ids.now) }
    ensures err { OnErr result (here.new ≡ nothing_here) }
{
    let content = or_nothing(content_put(alloc, value), here)?;
    let node = here.worker.node;
    let kept = or_nothing(SmallList::of(alloc, ids.as_slice()), here)?;
    let made = or_nothing(put_object(alloc, bearer, kept, node), here)?;
    add_own(here, made)?;
    let stored = put_primary(&mut here.there.node.store, object, 0, content);
    or_nothing(stored, here)?;
    hold_ids(here, object, ids)
}

/// The object of that serial is made by that task.
fn set_task_at(objects: &mut Objects, serial: u64, task: OwnTask)
    ensures { objects.new ≡ changed_at objects.old serial (with_task task) }
{
    let Some(place) = row_of(objects, serial) else {
        return;
    };
    let object = objects.row_mut(place);
    object.source = ObjectSource::ByTask(task);
}

/// The first attempt of a new task is asked for.
fn request_first(
    alloc: Global,
    here: &mut WorkerContext,
    object: ObjectId,
    spec: &SharedBirth,
) -> Result<(), AllocError>
    ensures done { OnOk result (here.new ≡ requests here.old object (new_task spec.now)) }
    ensures err { OnErr result (here.new ≡ nothing_here) }
{
    let node = here.worker.node;
    let spec = or_nothing(spec.copy(alloc), here)?;
    let task = OwnTask {
        spec,
        begun: SmallList::new(alloc),
        number: 0,
        progress: Progress::AskedAt(0, node),
    };
    set_task_at(&mut here.worker.objects, object.serial, task);
    say_to_node(here, node, Message::Ask(AttemptId { object, number: 0 }, 0))
}

/// A task is born, with an object for each result, and asked for.
fn bear_task(
    alloc: Global,
    here: &mut WorkerContext,
    bearer: AttemptId,
    object: ObjectId,
    spec: &SharedBirth,
    others: u8,
    ids: &Seq<ObjectId>,
) -> Result<(), AllocError>
    requires { object.serial ≤ 2 ^ 63 }
    ensures done { results_of spec.now ≡ 1 + others → OnOk result (here.new ≡ bears_task here.old bearer object spec.now others ids.now) }
    ensures err { OnErr result (here.new ≡ nothing_here) }
{
    add_first(alloc, here, bearer, spec, ids)?;
    add_others(alloc, here, bearer, object.serial, others, ids)?;
    hold_all(here, object.serial, object.serial + 1 + others as u64, ids)?;
    request_first(alloc, here, object, spec)
}

/// One birth.
fn bear(
    alloc: Global,
    here: &mut WorkerContext,
    bearer: AttemptId,
    spec: &SharedBirth,
) -> Result<(), AllocError>
    ensures done { OnOk result (here.new ≡ bears here.old bearer spec.now) }
    ensures err { OnErr result (here.new ≡ nothing_here) }
{
    let object = next_id(here);
    let ids = or_nothing(ids_in_birth(alloc, spec), here)?;
    match &*spec.inner {
        Birth::Put(value) => bear_put(alloc, here, bearer, object, value, &ids),
        Birth::Task { others, .. } => bear_task(alloc, here, bearer, object, spec, *others, &ids),
    }
}

/// All births of a commit.
pub fn bear_all(
    alloc: Global,
    here: &mut WorkerContext,
    bearer: AttemptId,
    births: &Seq<SharedBirth>,
) -> Result<(), AllocError>
    ensures done { OnOk result (here.new ≡ bears_all here.old bearer births.now) }
    ensures err { OnErr result (here.new ≡ nothing_here) }
    ensures asked { OnErr result (is_empty births.now ≡ false) }
{
    for birth in &births.items {
        bear(alloc, here, bearer, birth)?;
    }
    Ok(())
}
