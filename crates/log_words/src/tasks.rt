// The task of which an object is a result, and the objects of a task, listed.

ghost use Rattle.std.specs.Prelude.{◌≡◌, ◌++◌, [], IfOk, OnErr, OnOk, option_copied, string_bytes};
ghost use Rattle.std.specs.List.{flat_map};
ghost use Rattle.std.specs.Option.{option_map};
ghost use Rattle.meaning.specs.Births.{objects_at, objects_with};
ghost use Rattle.task_spec.specs.Births.{birth_of};
ghost use Rattle.made_objects.specs.Made.{objects_made};
ghost use Rattle.report_text.specs.of_event_log.Words.{births};
ghost use Rattle.report_text.specs.of_report_lines.Main.{first};
ghost use Rattle.log_words.specs.Index.{IsIndexOf};
ghost use Rattle.log_words.specs.Tasks.{listed_text, objects_text, other_object, task_in, task_of};

use crate::births::{BirthIndex, is_main};
use ids::ObjectId;
use log_entries::Entry;
use made_objects::{add_objects, is_made_by};
use report::or_no_text;
use std::alloc::{AllocError, Global};
use task_spec::Birth;

#[tactic(auto, unfolding(made_objects::specs::Made::objects_made))]
fn objects_with(
    alloc: Global,
    first: ObjectId,
    birth: Option<&Birth>,
) -> Result<Vec<ObjectId>, AllocError>
    ensures { IfOk result (λ objects. objects.items ≡ objects_with first (option_map birth_of (option_copied birth.entry))) }
{
    let mut objects = Vec::new(alloc);
    let Some(birth) = birth else {
        return Ok(objects);
    };
    add_objects(&mut objects, first, birth)?;
    Ok(objects)
}

/// The objects of what was born with this first object, in order, by the log of which that is the index; none where nothing was.
pub fn objects_at(
    alloc: Global,
    index: &BirthIndex,
    log: &[Entry],
    first: ObjectId,
) -> Result<Vec<ObjectId>, AllocError>
    ensures { IsIndexOf index.now log.now → IfOk result (λ objects. objects.items ≡ objects_at (births log.now) first) }
{
    objects_with(alloc, first, index.birth(log, first))
}

/// Writes the objects behind the first.
fn write_other_objects(text: &mut String, others: &[ObjectId]) -> Result<(), AllocError>
    ensures { OnOk result (string_bytes text.new ≡ string_bytes text.old ++ flat_map other_object others.now) }
{
    for object in others {
        let object = *object;
        write!(text, ", {object}")?;
    }
    Ok(())
}

fn write_listed(text: &mut String, objects: &[ObjectId]) -> Result<(), AllocError>
    ensures { OnOk result (string_bytes text.new ≡ string_bytes text.old ++ listed_text objects.now) }
{
    let [first, others @ ..] = objects else {
        return Ok(());
    };
    let object = *first;
    write!(text, "{object}")?;
    write_other_objects(text, others)
}

/// Writes the objects of the birth whose first object is this, in order, such as `o1.2, o1.3`. An error is want of memory, and then nothing is
/// left of the text.
#[tactic(auto, unfolding(crate::specs::Tasks::objects_text))]
pub fn write_objects(text: &mut String, object: ObjectId, birth: &Birth) -> Result<(), AllocError>
    ensures done { OnOk result (string_bytes text.new ≡ string_bytes text.old ++ objects_text object (birth_of birth.now)) }
    ensures err { OnErr result (string_bytes text.new ≡ []) }
{
    let mut objects = Vec::new(*text.allocator());
    or_no_text(add_objects(&mut objects, object, birth), text)?;
    or_no_text(write_listed(text, &objects), text)
}

fn task_in(object: ObjectId, entry: &Entry) -> Option<ObjectId>
    ensures { result ≡ first (task_in object entry.now) }
{
    let Entry::Born {
        object: born,
        birth,
        ..
    } = entry
    else {
        return None;
    };
    if is_made_by(object, *born, &birth.inner) {
        return Some(*born);
    }
    None
}

/// The first object of the first birth that makes the object, if one does.
fn born_with(log: &[Entry], object: ObjectId) -> Option<ObjectId>
    ensures { result ≡ first (flat_map (task_in object) log.now) }
{
    for entry in log {
        if let Some(found) = task_in(object, entry) {
            return Some(found);
        }
    }
    None
}

/// The object by which the attempts of the object's task are named: the first of the birth of which it is a result. One that was never born, and main's,
/// stands for itself. Takes no memory.
pub fn task_of(log: &[Entry], object: ObjectId) -> ObjectId
    ensures { result ≡ task_of (births log.now) object }
{
    if is_main(object) {
        return object;
    }
    match born_with(log, object) {
        Some(task) => task,
        None => object,
    }
}
