// What each entry adds to the graph.

ghost use Rattle.std.specs.Prelude.{◌≡◌, ◌++◌, OnOk, string_bytes};
ghost use Rattle.report_text.specs.of_report_lines.Attempts.{AreStatesOf};
ghost use Rattle.log_words.specs.Index.{IsIndexOf};
ghost use Rattle.lineage_text.specs.Entries.{lineage_in, released_text, resolved_head, resolved_text};

use crate::attempts::{write_begun, write_ended, write_fault_tail, write_faulted};
use crate::births::write_born;
use ids::ObjectId;
use log_entries::Entry;
use log_words::{BirthIndex, Contents};
use report_text::AttemptStates;
use std::alloc::{AllocError, Global};
use values::Fault;

#[tactic(auto, unfolding(crate::specs::Entries::resolved_head))]
fn write_resolved_head(text: &mut String, object: ObjectId) -> Result<(), AllocError>
    ensures { OnOk result (string_bytes text.new ≡ string_bytes text.old ++ resolved_head object) }
{
    write!(text, "    \"{object}\" [xlabel=\"")
}

fn write_resolved(text: &mut String, object: ObjectId, fault: Fault) -> Result<(), AllocError>
    ensures { OnOk result (string_bytes text.new ≡ string_bytes text.old ++ resolved_text object fault) }
{
    write_resolved_head(text, object)?;
    write_fault_tail(text, fault)
}

#[tactic(auto, unfolding(crate::specs::Entries::released_text))]
fn write_released(text: &mut String, object: ObjectId) -> Result<(), AllocError>
    ensures { OnOk result (string_bytes text.new ≡ string_bytes text.old ++ released_text object) }
{
    writeln!(text, "    \"{object}\" [fontcolor=gray];")
}

/// Writes what an entry of the log adds to the graph.
pub fn write_entry(
    alloc: Global,
    text: &mut String,
    contents: Contents,
    states: &AttemptStates,
    index: &BirthIndex,
    log: &[Entry],
    entry: &Entry,
) -> Result<(), AllocError>
    ensures { AreStatesOf states.now log.now → IsIndexOf index.now log.now → OnOk result
        (string_bytes text.new ≡ string_bytes text.old ++ lineage_in contents log.now entry.now) }
{
    match entry {
        Entry::Born { object, birth, .. } => write_born(
            alloc,
            text,
            contents,
            *object,
            &birth.inner,
        ),
        Entry::Begun { attempt, worker } => write_begun(
            alloc, text, states, index, log, *attempt, *worker,
        ),
        Entry::Ended {
            attempt,
            contents: results,
        } => write_ended(alloc, text, contents, index, log, *attempt, results),
        Entry::Faulted { attempt, fault, .. } => {
            write_faulted(alloc, text, index, log, *attempt, *fault)
        }
        Entry::Resolved { object, fault } => write_resolved(text, *object, *fault),
        Entry::Released(object) => write_released(text, *object),
        _ => Ok(()),
    }
}
