// The nodes of the objects that a birth makes, with the edges that it gives them.

ghost use Rattle.std.specs.Prelude.{◌≡◌, ◌++◌, OnOk, string_bytes};
ghost use Rattle.std.specs.List.{flat_map};
ghost use Rattle.task_spec.specs.Births.{birth_of};
ghost use Rattle.lineage_text.specs.Births.{birth_edges, born_text, label_text, node_head, node_tail, node_text, object_text, place_note};

use crate::edges::{write_arguments, write_named_edges};
use ids::ObjectId;
use log_words::{Contents, add_objects, ids_of, write_call, write_value};
use std::alloc::{AllocError, Global};
use task_spec::Birth;

#[tactic(auto, unfolding(crate::specs::Births::node_head))]
fn write_head(text: &mut String, object: ObjectId) -> Result<(), AllocError>
    ensures { OnOk result (string_bytes text.new ≡ string_bytes text.old ++ node_head object) }
{
    write!(text, "    \"{object}\" [label=\"{object}: ")
}

fn write_label(text: &mut String, contents: Contents, birth: &Birth) -> Result<(), AllocError>
    ensures { OnOk result (string_bytes text.new ≡ string_bytes text.old ++ label_text contents (birth_of birth.now)) }
{
    match birth {
        Birth::Put(value) => {
            text.push_str("put ")?;
            write_value(text, contents, value)
        }
        Birth::Task {
            function,
            arguments,
            ..
        } => write_call(text, contents, function.as_str(), arguments.as_slice()),
    }
}

/// Writes which of the call's results it is, counted from 0, if it isn't the first.
#[tactic(auto, unfolding(crate::specs::Births::place_note))]
fn write_place(text: &mut String, place: u64) -> Result<(), AllocError>
    ensures { OnOk result (string_bytes text.new ≡ string_bytes text.old ++ place_note place) }
{
    if place == 0 {
        return Ok(());
    }
    let number = (place as u128) + 1;
    write!(text, ", result {number}")
}

#[tactic(auto, unfolding(crate::specs::Births::node_tail))]
fn write_tail(text: &mut String, birth: &Birth) -> Result<(), AllocError>
    ensures { OnOk result (string_bytes text.new ≡ string_bytes text.old ++ node_tail (birth_of birth.now)) }
{
    match birth {
        Birth::Put(_) => text.push_str("\", shape=ellipse];\n"),
        Birth::Task { .. } => text.push_str("\"];\n"),
    }
}

#[tactic(auto, unfolding(crate::specs::Births::node_text))]
fn write_node(
    text: &mut String,
    contents: Contents,
    first: ObjectId,
    birth: &Birth,
    object: ObjectId,
) -> Result<(), AllocError>
    ensures { OnOk result (string_bytes text.new ≡ string_bytes text.old
        ++ node_text contents first (birth_of birth.now) object) }
{
    write_head(text, object)?;
    write_label(text, contents, birth)?;
    write_place(text, object.serial.saturating_sub(first.serial))?;
    write_tail(text, birth)
}

fn write_edges(
    alloc: Global,
    text: &mut String,
    object: ObjectId,
    birth: &Birth,
) -> Result<(), AllocError>
    ensures { OnOk result (string_bytes text.new ≡ string_bytes text.old ++ birth_edges object (birth_of birth.now)) }
{
    match birth {
        Birth::Put(value) => {
            let named = ids_of(alloc, value)?;
            write_named_edges(text, object, &named)
        }
        Birth::Task { arguments, .. } => write_arguments(alloc, text, object, arguments.as_slice()),
    }
}

/// Writes the node of one of the birth's objects, and its edges.
fn write_object(
    alloc: Global,
    text: &mut String,
    contents: Contents,
    first: ObjectId,
    birth: &Birth,
    object: ObjectId,
) -> Result<(), AllocError>
    ensures { OnOk result (string_bytes text.new ≡ string_bytes text.old
        ++ object_text contents first (birth_of birth.now) object) }
{
    write_node(text, contents, first, birth, object)?;
    write_edges(alloc, text, object, birth)
}

fn write_objects(
    alloc: Global,
    text: &mut String,
    contents: Contents,
    first: ObjectId,
    birth: &Birth,
    objects: &[ObjectId],
) -> Result<(), AllocError>
    ensures { OnOk result (string_bytes text.new ≡ string_bytes text.old
        ++ flat_map (object_text contents first (birth_of birth.now)) objects.now) }
{
    for object in objects {
        write_object(alloc, text, contents, first, birth, *object)?;
    }
    Ok(())
}

/// Writes the nodes of a birth's objects, of which that is the first, and the edges that the birth gives each.
pub fn write_born(
    alloc: Global,
    text: &mut String,
    contents: Contents,
    first: ObjectId,
    birth: &Birth,
) -> Result<(), AllocError>
    ensures { OnOk result (string_bytes text.new ≡ string_bytes text.old
        ++ born_text contents first (birth_of birth.now)) }
{
    let mut objects = Vec::new(alloc);
    add_objects(&mut objects, first, birth)?;
    write_objects(alloc, text, contents, first, birth, &objects)
}
