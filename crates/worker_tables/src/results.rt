// How many results a task has, and which objects are of one task.

ghost use Rattle.std.specs.Prelude.{◌≡◌, ◌≤◌, ◌+◌, ◌^◌, Some};
ghost use Rattle.meaning.specs.Values.{results_of};
ghost use Rattle.contexts.specs.of_protocol.Numbered.{item_at};
ghost use Rattle.contexts.specs.of_protocol.Releases.{going_with};
ghost use Rattle.contexts.specs.of_protocol.Tables.{task_of};
ghost use Rattle.contexts.specs.of_protocol_data.declared.tables.Object.{Object};
ghost use Rattle.contexts.specs.of_protocol_data.declared.tables.OwnTask.{OwnTask};

use contexts::protocol_data::{ObjectSource, Objects};
use held::SharedBirth;
use number_lists::place_of;
use task_spec::Birth;

/// How many objects the birth makes: of a put value one, of a task one for each result.
pub fn results_of(spec: &SharedBirth) -> u64
    ensures value { result ≡ results_of spec.now }
    ensures bound { result ≤ 2 ^ 8 }
{
    match &*spec.inner {
        Birth::Put(_) => 1,
        Birth::Task { others, .. } => 1 + *others as u64,
    }
}

/// How many objects go with one that is made so: a put value goes alone, with the first object of a task all of them go, with a later one none.
fn going_with(source: &ObjectSource) -> u64
    ensures value { result ≡ going_with source.now }
    ensures bound { result ≤ 2 ^ 8 }
{
    match source {
        ObjectSource::WasPut => 1,
        ObjectSource::ByTask(task) => results_of(&task.spec),
        ObjectSource::Beside(_) => 0,
    }
}

/// The serial behind the objects that go with the one of that serial: where a task stands with that, behind the last object of the task. Where there
/// is no such object, that serial itself.
#[tactic(auto, using(crate::proofs::Goings::goes_by_task, number_lists::proofs::Places::item_there, number_lists::proofs::Places::no_item))]
pub fn end_of(objects: &Objects, serial: u64) -> u64
    ensures going { (x : Object) → item_at objects.now serial ≡ Some x → result ≡ serial + going_with x.source }
    ensures task { (task : OwnTask) → task_of (item_at objects.now serial) ≡ Some task → result ≡ serial + results_of task.spec }
{
    let Some(place) = place_of(serial, objects.len()) else {
        return serial;
    };
    place as u64 + 1 + going_with(&objects.row(place).source)
}
