// How a message's nodes and objects are written, as `[n1, n2]`.

ghost use Rattle.std.specs.Prelude.{◌≡◌, ◌++◌, OnOk, string_bytes};
ghost use Rattle.std.specs.List.{flat_map};
ghost use Rattle.message_text.specs.Messages.{inner_nodes, inner_objects, nodes_text, objects_text, other_node, other_object};

use ids::{NodeId, ObjectId};
use std::alloc::AllocError;

/// Writes the nodes behind the first.
fn write_other_nodes(text: &mut String, nodes: &[NodeId]) -> Result<(), AllocError>
    ensures { OnOk result (string_bytes text.new ≡ string_bytes text.old ++ flat_map other_node nodes.now) }
{
    for node in nodes {
        let number = node.0;
        write!(text, ", n{number}")?;
    }
    Ok(())
}

fn write_inner_nodes(text: &mut String, nodes: &[NodeId]) -> Result<(), AllocError>
    ensures { OnOk result (string_bytes text.new ≡ string_bytes text.old ++ inner_nodes nodes.now) }
{
    let [first, others @ ..] = nodes else {
        return Ok(());
    };
    let number = first.0;
    write!(text, "n{number}")?;
    write_other_nodes(text, others)
}

/// Writes nodes, such as `[n1, n2]`.
pub fn write_nodes(text: &mut String, nodes: &[NodeId]) -> Result<(), AllocError>
    ensures { OnOk result (string_bytes text.new ≡ string_bytes text.old ++ nodes_text nodes.now) }
{
    text.push_str("[")?;
    write_inner_nodes(text, nodes)?;
    text.push_str("]")
}

/// Writes the objects behind the first.
fn write_other_objects(text: &mut String, objects: &[ObjectId]) -> Result<(), AllocError>
    ensures { OnOk result (string_bytes text.new ≡ string_bytes text.old ++ flat_map other_object objects.now) }
{
    for object in objects {
        let object = *object;
        write!(text, ", {object}")?;
    }
    Ok(())
}

fn write_inner_objects(text: &mut String, objects: &[ObjectId]) -> Result<(), AllocError>
    ensures { OnOk result (string_bytes text.new ≡ string_bytes text.old ++ inner_objects objects.now) }
{
    let [first, others @ ..] = objects else {
        return Ok(());
    };
    let object = *first;
    write!(text, "{object}")?;
    write_other_objects(text, others)
}

/// Writes objects, such as `[o1.1, o2.3]`.
pub fn write_objects(text: &mut String, objects: &[ObjectId]) -> Result<(), AllocError>
    ensures { OnOk result (string_bytes text.new ≡ string_bytes text.old ++ objects_text objects.now) }
{
    text.push_str("[")?;
    write_inner_objects(text, objects)?;
    text.push_str("]")
}
