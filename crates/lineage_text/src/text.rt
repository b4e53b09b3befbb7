// The graph of a log, for Graphviz.

ghost use Rattle.std.specs.Prelude.{◌≡◌, ◌++◌, IfOk, OnOk, string_bytes};
ghost use Rattle.std.specs.List.{flat_map};
ghost use Rattle.report_text.specs.of_report_lines.Attempts.{AreStatesOf};
ghost use Rattle.log_words.specs.Index.{IsIndexOf};
ghost use Rattle.lineage_text.specs.Entries.{lineage_in};
ghost use Rattle.lineage_text.specs.Text.{graph_head, lineage_text};

use crate::entries::write_entry;
use log_entries::Entry;
use log_words::{BirthIndex, Contents};
use report_text::AttemptStates;
use std::alloc::{AllocError, Global};

#[tactic(auto, unfolding(crate::specs::Text::graph_head))]
fn write_head(text: &mut String) -> Result<(), AllocError>
    ensures { OnOk result (string_bytes text.new ≡ string_bytes text.old ++ graph_head) }
{
    text.push_str(
        "strict digraph lineage {\n    node [shape=box];\n    \"o1.0\" [label=\"o1.0: main()\"];\n",
    )
}

fn write_each(
    alloc: Global,
    text: &mut String,
    contents: Contents,
    states: &AttemptStates,
    index: &BirthIndex,
    log: &[Entry],
) -> Result<(), AllocError>
    requires states { AreStatesOf states.now log.now }
    requires index { IsIndexOf index.now log.now }
    ensures { OnOk result (string_bytes text.new ≡ string_bytes text.old ++ flat_map (lineage_in contents log.now) log.now) }
{
    for entry in log {
        write_entry(alloc, text, contents, states, index, log, entry)?;
    }
    Ok(())
}

fn write_with_states(
    alloc: Global,
    text: &mut String,
    contents: Contents,
    states: &AttemptStates,
    log: &[Entry],
) -> Result<(), AllocError>
    requires { AreStatesOf states.now log.now }
    ensures { OnOk result (string_bytes text.new ≡ string_bytes text.old ++ flat_map (lineage_in contents log.now) log.now) }
{
    let index = BirthIndex::of(alloc, log)?;
    let written = write_each(alloc, text, contents, states, &index, log);
    drop(index);
    written
}

fn write_entries(
    alloc: Global,
    text: &mut String,
    contents: Contents,
    log: &[Entry],
) -> Result<(), AllocError>
    ensures { OnOk result (string_bytes text.new ≡ string_bytes text.old ++ flat_map (lineage_in contents log.now) log.now) }
{
    let states = AttemptStates::of(alloc, log)?;
    let written = write_with_states(alloc, text, contents, &states, log);
    drop(states);
    written
}

/// What the objects of a log are made of, as a graph in Graphviz's language DOT, main's own object with them: a box for each
/// result of a task, labelled by its call, and an ellipse for each put; an edge to a result from each object in the task's arguments, and
/// a dashed edge from an object to each that its value names. An attempt stands beside the objects of its task, with its worker and its
/// state as in a report, and the dotted line between an object and it has the object's content or the fault with which it ended. An object
/// that will have no content is red, with its fault beside it, and the text of one that was released is gray.
///
/// It is made of any log, a legal one or not. Names of functions are written as they are: those of a script that was
/// checked need no escapes. Goes over the log a fixed number of times.
pub fn lineage_text(alloc: Global, contents: Contents, log: &[Entry]) -> Result<String, AllocError>
    ensures { IfOk result (λ text. string_bytes text ≡ lineage_text contents log.now) }
{
    let mut text = String::new(alloc);
    write_head(&mut text)?;
    write_entries(alloc, &mut text, contents, log)?;
    text.push_str("}\n")?;
    Ok(text)
}
