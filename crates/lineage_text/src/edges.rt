// The edges between objects.

ghost use Rattle.std.specs.Prelude.{◌≡◌, ◌++◌, OnOk, map, string_bytes};
ghost use Rattle.std.specs.List.{flat_map};
ghost use Rattle.task_spec.specs.Births.{argument_of};
ghost use Rattle.lineage_text.specs.Edges.{argument_edge, argument_edges, named_edge};

use ids::ObjectId;
use log_words::ids_of;
use std::alloc::{AllocError, Global};
use task_spec::Argument;

fn write_argument_edge(text: &mut String, to: ObjectId, from: ObjectId) -> Result<(), AllocError>
    ensures { OnOk result (string_bytes text.new ≡ string_bytes text.old ++ argument_edge to from) }
{
    writeln!(text, "    \"{from}\" -> \"{to}\";")
}

fn write_named_edge(text: &mut String, from: ObjectId, to: ObjectId) -> Result<(), AllocError>
    ensures { OnOk result (string_bytes text.new ≡ string_bytes text.old ++ named_edge from to) }
{
    writeln!(text, "    \"{from}\" -> \"{to}\" [style=dashed];")
}

fn write_argument_edges(
    text: &mut String,
    to: ObjectId,
    from: &[ObjectId],
) -> Result<(), AllocError>
    ensures { OnOk result (string_bytes text.new ≡ string_bytes text.old ++ flat_map (argument_edge to) from.now) }
{
    for object in from {
        write_argument_edge(text, to, *object)?;
    }
    Ok(())
}

/// Writes dashed edges from an object to those that a content of it names.
pub fn write_named_edges(
    text: &mut String,
    from: ObjectId,
    to: &[ObjectId],
) -> Result<(), AllocError>
    ensures { OnOk result (string_bytes text.new ≡ string_bytes text.old ++ flat_map (named_edge from) to.now) }
{
    for object in to {
        write_named_edge(text, from, *object)?;
    }
    Ok(())
}

/// Writes edges to a task from the objects in its arguments.
pub fn write_arguments(
    alloc: Global,
    text: &mut String,
    to: ObjectId,
    arguments: &[Argument],
) -> Result<(), AllocError>
    ensures { OnOk result
        (string_bytes text.new ≡ string_bytes text.old ++ flat_map (argument_edges to) (map argument_of arguments.now)) }
{
    for argument in arguments {
        let from = ids_of(alloc, &argument.value)?;
        write_argument_edges(text, to, &from)?;
    }
    Ok(())
}
