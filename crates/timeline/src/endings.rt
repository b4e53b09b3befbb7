// The spans that end with an entry.

ghost use Rattle.std.specs.Prelude.{◌≡◌, ◌++◌, ◌==◌, [], IfOk, OnOk, if◌then◌else◌, map, string_bytes};
ghost use Rattle.serde_json.specs.View.{view};
ghost use Rattle.values.specs.Values.{content_of};
ghost use Rattle.event_log.specs.Words.{births};
ghost use Rattle.report_text.specs.of_report_lines.Texts.{fault_text};
ghost use Rattle.log_words.specs.Index.{IsIndexOf};
ghost use Rattle.log_words.specs.Contents.{content_text, contents_text};
ghost use Rattle.timeline.specs.Endings.{both_spans, death_data, event_data, get_name, open_data, row_data};

use crate::marks::mark_json;
use crate::rows::{Row, runs};
use crate::spans::{add_attempt, add_wait};
use held::{SharedContent, SmallList};
use ids::ObjectId;
use log_entries::{Entry, Event};
use log_words::{BirthIndex, Contents, write_content, write_contents};
use report_text::kind_name;
use serde_json::Value;
use std::alloc::{AllocError, Global};
use values::{Content, Fault};

fn get_name(alloc: Global, object: ObjectId) -> Result<String, AllocError>
    ensures { IfOk result (λ s. string_bytes s ≡ get_name object) }
{
    format!(in alloc; "get {object}")
}

fn content_name(alloc: Global, contents: Contents, content: &Content) -> Result<String, AllocError>
    ensures { IfOk result (λ s. string_bytes s ≡ content_text contents (content_of content.now)) }
{
    let mut text = String::new(alloc);
    write_content(&mut text, contents, content)?;
    Ok(text)
}

fn contents_name(
    alloc: Global,
    contents: Contents,
    results: &SmallList<SharedContent>,
) -> Result<String, AllocError>
    ensures { IfOk result (λ s. string_bytes s ≡ contents_text contents results.now) }
{
    let mut text = String::new(alloc);
    write_contents(&mut text, contents, results)?;
    Ok(text)
}

fn fault_name(alloc: Global, fault: Fault) -> Result<String, AllocError>
    ensures { IfOk result (λ s. string_bytes s ≡ fault_text fault) }
{
    let kind = kind_name(fault.kind);
    let object = fault.object;
    format!(in alloc; "{kind} {object}")
}

/// Adds a wait and the attempt, both up to this event.
fn add_both(
    alloc: Global,
    all: &mut Vec<Value>,
    contents: Contents,
    index: &BirthIndex,
    log: &[Entry],
    clock: usize,
    name: &str,
    ending: &str,
    row: &Row,
) -> Result<(), AllocError>
    ensures { IsIndexOf index.now log.now → OnOk result
        (map view all.new.items ≡ map view all.old.items ++ both_spans contents (births log.now) clock name.now ending.now row.now) }
{
    add_wait(alloc, all, clock, name, ending, row)?;
    add_attempt(alloc, all, contents, index, log, clock, ending, row)
}

/// Adds what the death of the row's worker ends.
fn add_death(
    alloc: Global,
    all: &mut Vec<Value>,
    contents: Contents,
    index: &BirthIndex,
    log: &[Entry],
    clock: usize,
    row: &Row,
) -> Result<(), AllocError>
    ensures { IsIndexOf index.now log.now → OnOk result
        (map view all.new.items ≡ map view all.old.items ++ death_data contents (births log.now) clock row.now) }
{
    add_both(
        alloc, all, contents, index, log, clock, "get", "killed", row,
    )?;
    all.push(mark_json(alloc, "dies", "t", row.node, row.worker.0, clock)?)?;
    Ok(())
}

fn add_event(
    alloc: Global,
    all: &mut Vec<Value>,
    contents: Contents,
    index: &BirthIndex,
    log: &[Entry],
    clock: usize,
    event: &Event,
    row: &Row,
) -> Result<(), AllocError>
    ensures { IsIndexOf index.now log.now → OnOk result
        (map view all.new.items ≡ map view all.old.items ++ event_data contents (births log.now) clock event.now row.now) }
{
    match event {
        Event::Kill(worker) => {
            if worker.0 == row.worker.0 {
                return add_death(alloc, all, contents, index, log, clock, row);
            }
            Ok(())
        }
        Event::KillNode(node) => {
            if node.0 == row.node.0 {
                return add_death(alloc, all, contents, index, log, clock, row);
            }
            Ok(())
        }
        _ => Ok(()),
    }
}

/// Adds what an entry adds in a row.
pub fn add_row(
    alloc: Global,
    all: &mut Vec<Value>,
    contents: Contents,
    index: &BirthIndex,
    log: &[Entry],
    clock: usize,
    entry: &Entry,
    is_refused: bool,
    row: &Row,
) -> Result<(), AllocError>
    ensures { IsIndexOf index.now log.now → OnOk result
        (map view all.new.items ≡ map view all.old.items ++ row_data contents (births log.now) clock entry.now is_refused row.now) }
{
    match entry {
        Entry::Got {
            attempt,
            object,
            content,
        } => {
            if !runs(*attempt, row) {
                return Ok(());
            }
            let name = get_name(alloc, *object)?;
            let ending = content_name(alloc, contents, &content.inner)?;
            add_wait(alloc, all, clock, name.as_str(), ending.as_str(), row)
        }
        Entry::Ended {
            attempt,
            contents: results,
        } => {
            if !runs(*attempt, row) {
                return Ok(());
            }
            let ending = contents_name(alloc, contents, results)?;
            add_attempt(
                alloc,
                all,
                contents,
                index,
                log,
                clock,
                ending.as_str(),
                row,
            )
        }
        Entry::Faulted {
            attempt,
            object,
            fault,
        } => {
            if !runs(*attempt, row) {
                return Ok(());
            }
            let name = get_name(alloc, *object)?;
            let ending = fault_name(alloc, *fault)?;
            add_both(
                alloc,
                all,
                contents,
                index,
                log,
                clock,
                name.as_str(),
                ending.as_str(),
                row,
            )
        }
        Entry::In { event, .. } => {
            if is_refused {
                return Ok(());
            }
            add_event(alloc, all, contents, index, log, clock, event, row)
        }
        _ => Ok(()),
    }
}

/// Adds what stands open in a row at the end of the log.
pub fn add_open(
    alloc: Global,
    all: &mut Vec<Value>,
    contents: Contents,
    index: &BirthIndex,
    log: &[Entry],
    clock: usize,
    row: &Row,
) -> Result<(), AllocError>
    ensures { IsIndexOf index.now log.now → OnOk result
        (map view all.new.items ≡ map view all.old.items ++ open_data contents (births log.now) clock row.now) }
{
    add_both(alloc, all, contents, index, log, clock, "get", "open", row)
}
