// The copies in a node's store.

ghost use Rattle.std.specs.Prelude.{◌≡◌, ◌++◌, OnOk, Some, string_bytes, ◌<◌};
ghost use Rattle.std.specs.List.{find};
ghost use Rattle.state_text.specs.Below.{below};
ghost use Rattle.state_text.specs.Copies.{beside_copies, copies_of, copies_text, copy_lines, copy_note, has_primary};
ghost use Rattle.state_text.specs.Copies.{has_secondary, made_copies, object_copies, owned_copies, primary_line};
ghost use Rattle.state_text.specs.Copies.{row_copies, secondary_line, worker_copies};

use crate::standing::worker_count;
use crate::tasks::number_at;
use ids::{AttemptId, ObjectId, WorkerId};
use protocol_data::{ClusterState, ObjectSource, Objects, Store, Worker};
use std::alloc::AllocError;

fn has_primary(store: &Store, object: ObjectId, number: u32) -> bool
    ensures { result ≡ has_primary store.now object number }
{
    match store.primaries.find(object, Some(number)) {
        None => false,
        Some(_) => true,
    }
}

fn has_secondary(store: &Store, object: ObjectId, number: u32) -> bool
    ensures { result ≡ has_secondary store.now object number }
{
    match store.secondaries.find(object, number) {
        None => false,
        Some(_) => true,
    }
}

/// Writes of which attempt the content is; nothing for what was put.
#[tactic(auto, unfolding(crate::specs::Copies::copy_note))]
fn write_note(
    text: &mut String,
    first: Option<u64>,
    object: ObjectId,
    number: u32,
) -> Result<(), AllocError>
    ensures { OnOk result (string_bytes text.new ≡ string_bytes text.old ++ copy_note first object number) }
{
    let Some(serial) = first else {
        return text.push_str("\n");
    };
    let owner = object.owner;
    let object = ObjectId { owner, serial };
    let attempt = AttemptId { object, number };
    write!(text, " by {attempt}\n")
}

fn write_primary(
    text: &mut String,
    node: usize,
    store: &Store,
    first: Option<u64>,
    object: ObjectId,
    number: u32,
) -> Result<(), AllocError>
    ensures { OnOk result (string_bytes text.new ≡ string_bytes text.old ++ primary_line node store.now first object number) }
{
    if !has_primary(store, object, number) {
        return Ok(());
    }
    write!(text, "n{node}: primary copy of {object}")?;
    write_note(text, first, object, number)
}

fn write_secondary(
    text: &mut String,
    node: usize,
    store: &Store,
    first: Option<u64>,
    object: ObjectId,
    number: u32,
) -> Result<(), AllocError>
    ensures { OnOk result (string_bytes text.new ≡ string_bytes text.old ++ secondary_line node store.now first object number) }
{
    if !has_secondary(store, object, number) {
        return Ok(());
    }
    write!(text, "n{node}: secondary copy of {object}")?;
    write_note(text, first, object, number)
}

/// Writes the copies of that attempt's content.
#[tactic(auto, unfolding(crate::specs::Copies::copy_lines))]
fn write_copy(
    text: &mut String,
    node: usize,
    store: &Store,
    first: Option<u64>,
    object: ObjectId,
    number: u32,
) -> Result<(), AllocError>
    ensures { OnOk result (string_bytes text.new ≡ string_bytes text.old ++ copy_lines node store.now first object number) }
{
    write_primary(text, node, store, first, object, number)?;
    write_secondary(text, node, store, first, object, number)
}

/// Writes the copies of the contents of the attempts below that number.
fn write_earlier(
    text: &mut String,
    node: usize,
    store: &Store,
    first: u64,
    object: ObjectId,
    number: u32,
) -> Result<(), AllocError>
    ensures { OnOk result (string_bytes text.new ≡ string_bytes text.old ++ below (copy_lines node store.now (Some first) object) number) }
{
    for earlier in 0..number {
        write_copy(text, node, store, Some(first), object, earlier)?;
    }
    Ok(())
}

/// Writes the copies of the contents of the attempts up to that number.
fn write_made(
    text: &mut String,
    node: usize,
    store: &Store,
    first: u64,
    object: ObjectId,
    number: u32,
) -> Result<(), AllocError>
    ensures { OnOk result (string_bytes text.new ≡ string_bytes text.old ++ made_copies node store.now first object number) }
{
    write_earlier(text, node, store, first, object, number)?;
    write_copy(text, node, store, Some(first), object, number)
}

/// Writes those of a further result, whose task has that number.
fn write_beside(
    text: &mut String,
    node: usize,
    store: &Store,
    first: u64,
    object: ObjectId,
    number: Option<u32>,
) -> Result<(), AllocError>
    ensures { OnOk result (string_bytes text.new ≡ string_bytes text.old ++ beside_copies node store.now first object number) }
{
    match number {
        None => Ok(()),
        Some(number) => write_made(text, node, store, first, object, number),
    }
}

/// Writes those of an object that is made so.
fn write_object_copies(
    text: &mut String,
    node: usize,
    store: &Store,
    objects: &Objects,
    object: ObjectId,
    source: &ObjectSource,
) -> Result<(), AllocError>
    ensures { OnOk result (string_bytes text.new ≡ string_bytes text.old ++ object_copies node store.now objects.now object source.now) }
{
    match source {
        ObjectSource::WasPut => write_copy(text, node, store, None, object, 0),
        ObjectSource::ByTask(task) => {
            let first = object.serial;
            write_made(text, node, store, first, object, task.number)
        }
        ObjectSource::Beside(first) => {
            let number = number_at(objects, *first);
            write_beside(text, node, store, *first, object, number)
        }
    }
}

/// Writes the copies of the object at that place of the worker's.
#[tactic(auto, unfolding(crate::specs::Copies::row_copies))]
fn write_row_copies(
    text: &mut String,
    node: usize,
    store: &Store,
    owner: WorkerId,
    worker: &Worker,
    place: usize,
) -> Result<(), AllocError>
    ensures { OnOk result (string_bytes text.new ≡ string_bytes text.old ++ row_copies node store.now owner worker.now.objects place) }
{
    if place >= worker.objects.len() {
        return Ok(());
    }
    let object = ObjectId {
        owner,
        serial: place as u64 + 1,
    };
    let row = worker.objects.row(place);
    write_object_copies(text, node, store, &worker.objects, object, &row.source)
}

fn write_copies_of(
    text: &mut String,
    node: usize,
    store: &Store,
    owner: WorkerId,
    worker: &Worker,
) -> Result<(), AllocError>
    ensures { OnOk result (string_bytes text.new ≡ string_bytes text.old ++ copies_of node store.now owner worker.now) }
{
    for place in 0..worker.objects.len() {
        write_row_copies(text, node, store, owner, worker, place)?;
    }
    Ok(())
}

/// Writes the copies of what the worker at that place owns.
#[tactic(auto, unfolding(crate::specs::Copies::worker_copies))]
fn write_worker_copies(
    text: &mut String,
    node: usize,
    store: &Store,
    whole: &ClusterState,
    place: u32,
) -> Result<(), AllocError>
    requires { place < 4294967295 }
    ensures { OnOk result (string_bytes text.new ≡ string_bytes text.old ++ worker_copies node store.now whole.now place) }
{
    let Some(worker) = whole.workers.rows().items.get(place as usize) else {
        return Ok(());
    };
    write_copies_of(text, node, store, WorkerId(place + 1), worker)
}

/// Writes the copies of what each worker owns.
fn write_owned_copies(
    text: &mut String,
    node: usize,
    store: &Store,
    whole: &ClusterState,
) -> Result<(), AllocError>
    ensures { OnOk result (string_bytes text.new ≡ string_bytes text.old ++ owned_copies node store.now whole.now) }
{
    for place in 0..worker_count(whole) {
        write_worker_copies(text, node, store, whole, place)?;
    }
    Ok(())
}

/// Writes the copies in the node's store, in order of the ids of their objects, main's own first.
pub fn write_copies(
    text: &mut String,
    node: usize,
    store: &Store,
    whole: &ClusterState,
) -> Result<(), AllocError>
    ensures { OnOk result (string_bytes text.new ≡ string_bytes text.old ++ copies_text node store.now whole.now) }
{
    let main = ObjectId {
        owner: WorkerId(1),
        serial: 0,
    };
    let first = main.serial;
    write_copy(text, node, store, Some(first), main, 0)?;
    write_owned_copies(text, node, store, whole)
}
