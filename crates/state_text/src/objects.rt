// The lines of an object: what makes it, how far that is, and where its content is.

ghost use Rattle.std.specs.Prelude.{◌≡◌, ◌++◌, ◌<◌, OnOk, codes, option_copied, string_bytes};
ghost use Rattle.std.specs.Option.{option_map};
ghost use Rattle.meaning.specs.Births.{birth_at};
ghost use Rattle.event_log.specs.Words.{births};
ghost use Rattle.task_spec.specs.Births.{birth_of};
ghost use Rattle.log_words.specs.Index.{IsIndexOf};
ghost use Rattle.state_text.specs.Objects.{all_objects_text, beside_state, copies_line, dead_note, first_of, function_name};
ghost use Rattle.state_text.specs.Objects.{is_somewhere, kept_line, live_lines, made_state, source_text};
ghost use Rattle.state_text.specs.Objects.{object_head, object_text_of, objects_text, owner_head, owner_note, placed_head};
ghost use Rattle.state_text.specs.Objects.{placed_text, progress_text, resolved_note, rest_text, retries_line, row_lines};
ghost use Rattle.state_text.specs.Objects.{settled_by, settled_note, stands_text, used_line, worker_objects};

use crate::standing::{worker_count, write_node_words};
use crate::tasks::is_pending_at;
use held::SharedContent;
use holder_text::{write_askers, write_frame, write_holders};
use ids::{AttemptId, NodeId, ObjectId, WorkerId};
use log_entries::Entry;
use log_words::{BirthIndex, write_fault};
use protocol_data::{ClusterState, Object, ObjectSource, Objects, Progress, Worker};
use std::alloc::{AllocError, Global};
use task_spec::Birth;
use values::Fault;

fn write_function(text: &mut String, birth: Option<&Birth>) -> Result<(), AllocError>
    ensures { OnOk result (string_bytes text.new
        ≡ string_bytes text.old ++ function_name (option_map birth_of (option_copied birth.entry))) }
{
    let Some(Birth::Task { function, .. }) = birth else {
        return Ok(());
    };
    text.push_str(function.as_str())
}

/// The first object of the task that makes it too.
fn first_of(object: ObjectId, serial: u64) -> ObjectId
    ensures { result ≡ first_of object serial }
{
    let owner = object.owner;
    ObjectId { owner, serial }
}

/// Writes the function of the object's task.
fn write_task(
    text: &mut String,
    index: &BirthIndex,
    log: &[Entry],
    object: ObjectId,
) -> Result<(), AllocError>
    ensures { IsIndexOf index.now log.now → OnOk result
        (string_bytes text.new ≡ string_bytes text.old ++ (codes "made by " ++ function_name (birth_at (births log.now) object))) }
{
    text.push_str("made by ")?;
    write_function(text, index.birth(log, object))
}

/// Writes what makes the object.
fn write_source(
    text: &mut String,
    index: &BirthIndex,
    log: &[Entry],
    object: ObjectId,
    source: &ObjectSource,
) -> Result<(), AllocError>
    ensures { IsIndexOf index.now log.now → OnOk result
        (string_bytes text.new ≡ string_bytes text.old ++ source_text log.now object source.now) }
{
    match source {
        ObjectSource::WasPut => text.push_str("put"),
        ObjectSource::ByTask(_) => write_task(text, index, log, object),
        ObjectSource::Beside(serial) => write_task(text, index, log, first_of(object, *serial)),
    }
}

/// Writes of which attempt of the task that stands with the object the content is.
fn write_settled_by(text: &mut String, object: ObjectId, number: u32) -> Result<(), AllocError>
    ensures { OnOk result (string_bytes text.new ≡ string_bytes text.old ++ settled_by object number) }
{
    let attempt = AttemptId { object, number };
    write!(text, ", settled by {attempt}\n")
}

/// Writes of which attempt the content is; nothing for what was put.
fn write_settled(
    text: &mut String,
    object: ObjectId,
    source: &ObjectSource,
    number: u32,
) -> Result<(), AllocError>
    ensures { OnOk result (string_bytes text.new ≡ string_bytes text.old ++ settled_note object source.now number) }
{
    match source {
        ObjectSource::WasPut => text.push_str(", settled\n"),
        ObjectSource::ByTask(_) => write_settled_by(text, object, number),
        ObjectSource::Beside(serial) => write_settled_by(text, first_of(object, *serial), number),
    }
}

fn is_somewhere(locations: &[NodeId], kept: &Option<SharedContent>) -> bool
    ensures { result ≡ is_somewhere locations.now kept.now }
{
    kept.is_some() || !locations.is_empty()
}

/// Writes how an object stands of which no attempt is under way.
fn write_rest(text: &mut String, object: ObjectId, row: &Object) -> Result<(), AllocError>
    ensures { OnOk result (string_bytes text.new ≡ string_bytes text.old ++ rest_text object row.now) }
{
    let Some(number) = row.settled else {
        return text.push_str(", at rest\n");
    };
    if !is_somewhere(row.locations.as_slice(), &row.kept) {
        return text.push_str(", lost\n");
    }
    write_settled(text, object, &row.source, number)
}

/// Writes how far an attempt is that is asked for or under way, or how the object stands without one.
fn write_progress(
    text: &mut String,
    object: ObjectId,
    row: &Object,
    number: u32,
    progress: Progress,
) -> Result<(), AllocError>
    ensures { OnOk result (string_bytes text.new ≡ string_bytes text.old ++ progress_text object row.now number progress) }
{
    let attempt = AttemptId { object, number };
    match progress {
        Progress::AtRest => write_rest(text, object, row),
        Progress::AskedAt(_, node) => {
            write!(text, ", pending: {attempt} asked {node} for a worker\n")
        }
        Progress::RunsOn(worker, _) => write!(text, ", pending: {attempt} began on {worker}\n"),
    }
}

/// Writes how a further result of a task stands, of which an attempt may be asked for or under way.
fn write_beside(
    text: &mut String,
    object: ObjectId,
    row: &Object,
    first: ObjectId,
    is_pending: bool,
) -> Result<(), AllocError>
    ensures { OnOk result (string_bytes text.new ≡ string_bytes text.old ++ beside_state object row.now first is_pending) }
{
    if is_pending && !is_somewhere(row.locations.as_slice(), &row.kept) {
        return write!(text, ", comes with {first}\n");
    }
    write_rest(text, object, row)
}

/// Writes how an object stands that is neither released nor resolved, beside the objects of its owner.
fn write_made(
    text: &mut String,
    objects: &Objects,
    object: ObjectId,
    row: &Object,
) -> Result<(), AllocError>
    ensures { OnOk result (string_bytes text.new ≡ string_bytes text.old ++ made_state objects.now object row.now row.now.source) }
{
    match &row.source {
        ObjectSource::WasPut => write_rest(text, object, row),
        ObjectSource::ByTask(task) => write_progress(text, object, row, task.number, task.progress),
        ObjectSource::Beside(serial) => {
            let is_pending = is_pending_at(objects, *serial);
            write_beside(text, object, row, first_of(object, *serial), is_pending)
        }
    }
}

/// Writes that the object will have no content, and why.
fn write_resolved(text: &mut String, fault: Fault) -> Result<(), AllocError>
    ensures { OnOk result (string_bytes text.new ≡ string_bytes text.old ++ resolved_note fault) }
{
    text.push_str(", resolved: ")?;
    write_fault(text, fault)?;
    text.push_str("\n")?;
    Ok(())
}

#[tactic(auto, unfolding(crate::specs::Objects::dead_note))]
fn write_dead(text: &mut String, object: ObjectId) -> Result<(), AllocError>
    ensures { OnOk result (string_bytes text.new ≡ string_bytes text.old ++ dead_note object) }
{
    let owner = object.owner;
    write!(text, ", owner {owner}, dead\n")
}

#[tactic(auto, unfolding(crate::specs::Objects::owner_head))]
fn write_owner_head(text: &mut String, object: ObjectId) -> Result<(), AllocError>
    ensures { OnOk result (string_bytes text.new ≡ string_bytes text.old ++ owner_head object) }
{
    let owner = object.owner;
    write!(text, ", owner {owner}")
}

/// Writes how an object stands.
#[tactic(auto, unfolding(crate::specs::Objects::stands_text))]
fn write_stand(
    text: &mut String,
    objects: &Objects,
    object: ObjectId,
    row: &Object,
) -> Result<(), AllocError>
    ensures { OnOk result (string_bytes text.new ≡ string_bytes text.old ++ stands_text objects.now object row.now) }
{
    if row.is_released {
        return text.push_str(", released\n");
    }
    let Some(fault) = row.fault else {
        return write_made(text, objects, object, row);
    };
    write_resolved(text, fault)
}

/// Writes what an object is, and how it stands, if its owner lives.
#[tactic(auto, unfolding(crate::specs::Objects::object_head))]
fn write_head(
    text: &mut String,
    index: &BirthIndex,
    log: &[Entry],
    worker: &Worker,
    object: ObjectId,
    row: &Object,
) -> Result<(), AllocError>
    ensures { IsIndexOf index.now log.now → OnOk result
        (string_bytes text.new ≡ string_bytes text.old ++ object_head log.now worker.now object row.now) }
{
    write!(text, "{object}: ")?;
    write_source(text, index, log, object, &row.source)?;
    write_owner(text, worker, object, row)
}

fn write_owner(
    text: &mut String,
    worker: &Worker,
    object: ObjectId,
    row: &Object,
) -> Result<(), AllocError>
    ensures { OnOk result (string_bytes text.new ≡ string_bytes text.old ++ owner_note worker.now object row.now) }
{
    if !worker.is_live {
        return write_dead(text, object);
    }
    write_owner_head(text, object)?;
    write_stand(text, &worker.objects, object, row)
}

fn write_used(
    text: &mut String,
    birth: Option<&Birth>,
    object: ObjectId,
    number: u32,
) -> Result<(), AllocError>
    ensures { OnOk result (string_bytes text.new
        ≡ string_bytes text.old ++ used_line object number (option_map birth_of (option_copied birth.entry))) }
{
    let Some(Birth::Task { retries, .. }) = birth else {
        return Ok(());
    };
    let retries = *retries;
    write!(text, "{object}: {number} of {retries} retries used\n")
}

/// Writes how many retries of the task were used.
fn write_retries(
    text: &mut String,
    index: &BirthIndex,
    log: &[Entry],
    object: ObjectId,
    source: &ObjectSource,
) -> Result<(), AllocError>
    ensures { IsIndexOf index.now log.now → OnOk result
        (string_bytes text.new ≡ string_bytes text.old ++ retries_line log.now object source.now) }
{
    match source {
        ObjectSource::WasPut | ObjectSource::Beside(_) => Ok(()),
        ObjectSource::ByTask(task) => write_used(
            text,
            index.birth(log, object),
            object,
            task.number,
        ),
    }
}

#[tactic(auto, unfolding(crate::specs::Objects::placed_head))]
fn write_placed_head(text: &mut String, object: ObjectId) -> Result<(), AllocError>
    ensures { OnOk result (string_bytes text.new ≡ string_bytes text.old ++ placed_head object) }
{
    write!(text, "{object}: copies at")
}

fn write_placed(text: &mut String, object: ObjectId, locations: &[NodeId]) -> Result<(), AllocError>
    ensures { OnOk result (string_bytes text.new ≡ string_bytes text.old ++ placed_text object locations.now) }
{
    write_placed_head(text, object)?;
    write_node_words(text, locations)?;
    text.push_str("\n")?;
    Ok(())
}

/// Writes where the owner knows copies of the content.
fn write_locations(
    text: &mut String,
    object: ObjectId,
    locations: &[NodeId],
) -> Result<(), AllocError>
    ensures { OnOk result (string_bytes text.new ≡ string_bytes text.old ++ copies_line object locations.now) }
{
    if locations.is_empty() {
        return Ok(());
    }
    write_placed(text, object, locations)
}

/// Writes that the owner has the content, which is small.
fn write_kept(
    text: &mut String,
    object: ObjectId,
    kept: &Option<SharedContent>,
) -> Result<(), AllocError>
    ensures { OnOk result (string_bytes text.new ≡ string_bytes text.old ++ kept_line object kept.now) }
{
    match kept {
        None => Ok(()),
        Some(_) => write!(text, "{object}: small, kept by its owner\n"),
    }
}

/// Writes what a live owner knows of the object.
#[tactic(auto, unfolding(crate::specs::Objects::live_lines))]
fn write_live(
    alloc: Global,
    text: &mut String,
    index: &BirthIndex,
    log: &[Entry],
    worker: &Worker,
    object: ObjectId,
    row: &Object,
) -> Result<(), AllocError>
    ensures { IsIndexOf index.now log.now → OnOk result
        (string_bytes text.new ≡ string_bytes text.old ++ live_lines log.now worker.now object row.now) }
{
    write_retries(text, index, log, object, &row.source)?;
    write_locations(text, object, row.locations.as_slice())?;
    write_kept(text, object, &row.kept)?;
    write_holders(alloc, text, index, log, object, row)?;
    write_frame(text, index, log, worker, object, row.bearer)?;
    write_askers(text, object, row.askers.as_slice())
}

/// Writes what is said of the object.
fn write_object(
    alloc: Global,
    text: &mut String,
    index: &BirthIndex,
    log: &[Entry],
    worker: &Worker,
    object: ObjectId,
    row: &Object,
) -> Result<(), AllocError>
    ensures { IsIndexOf index.now log.now → OnOk result
        (string_bytes text.new ≡ string_bytes text.old ++ object_text_of log.now worker.now object row.now) }
{
    write_head(text, index, log, worker, object, row)?;
    if !worker.is_live {
        return Ok(());
    }
    write_live(alloc, text, index, log, worker, object, row)
}

/// Writes what is said of the object at that place of the worker's.
#[tactic(auto, unfolding(crate::specs::Objects::row_lines))]
fn write_row(
    alloc: Global,
    text: &mut String,
    index: &BirthIndex,
    log: &[Entry],
    owner: WorkerId,
    worker: &Worker,
    place: usize,
) -> Result<(), AllocError>
    ensures { IsIndexOf index.now log.now → OnOk result
        (string_bytes text.new ≡ string_bytes text.old ++ row_lines log.now owner worker.now place) }
{
    if place >= worker.objects.len() {
        return Ok(());
    }
    let object = ObjectId {
        owner,
        serial: place as u64 + 1,
    };
    let row = worker.objects.row(place);
    write_object(alloc, text, index, log, worker, object, row)
}

fn write_objects(
    alloc: Global,
    text: &mut String,
    index: &BirthIndex,
    log: &[Entry],
    owner: WorkerId,
    worker: &Worker,
) -> Result<(), AllocError>
    ensures { IsIndexOf index.now log.now → OnOk result
        (string_bytes text.new ≡ string_bytes text.old ++ objects_text log.now owner worker.now) }
{
    for place in 0..worker.objects.len() {
        write_row(alloc, text, index, log, owner, worker, place)?;
    }
    Ok(())
}

/// Writes what is said of the objects of the worker at that place.
#[tactic(auto, unfolding(crate::specs::Objects::worker_objects))]
fn write_worker_objects(
    alloc: Global,
    text: &mut String,
    index: &BirthIndex,
    log: &[Entry],
    whole: &ClusterState,
    place: u32,
) -> Result<(), AllocError>
    requires { place < 4294967295 }
    ensures { IsIndexOf index.now log.now → OnOk result
        (string_bytes text.new ≡ string_bytes text.old ++ worker_objects log.now whole.now place) }
{
    let Some(worker) = whole.workers.rows().items.get(place as usize) else {
        return Ok(());
    };
    write_objects(alloc, text, index, log, WorkerId(place + 1), worker)
}

/// Writes what is said of each object of each owner, in order of ids.
#[tactic(auto, unfolding(crate::specs::Objects::all_objects_text))]
pub fn write_all_objects(
    alloc: Global,
    text: &mut String,
    index: &BirthIndex,
    log: &[Entry],
    whole: &ClusterState,
) -> Result<(), AllocError>
    ensures { IsIndexOf index.now log.now → OnOk result
        (string_bytes text.new ≡ string_bytes text.old ++ all_objects_text log.now whole.now) }
{
    for place in 0..worker_count(whole) {
        write_worker_objects(alloc, text, index, log, whole, place)?;
    }
    Ok(())
}
