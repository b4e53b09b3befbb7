// What the entries add, one after the other.

ghost use Rattle.std.specs.Prelude.{◌≡◌, ◌++◌, [], IfOk, OnOk, map};
ghost use Rattle.std.specs.List.{flat_map};
ghost use Rattle.serde_json.specs.View.{view};
ghost use Rattle.event_log.specs.Words.{births};
ghost use Rattle.log_words.specs.Index.{IsIndexOf};
ghost use Rattle.log_words.specs.Told.{nothing_told, told_of};
ghost use Rattle.timeline.specs.Endings.{open_data, row_data};
ghost use Rattle.timeline.specs.Entries.{entries_data, entry_data, whole_data};

use crate::arrows::add_arrows;
use crate::endings::{add_open, add_row};
use crate::marks::add_marks;
use crate::rows::{Row, rows_after};
use log_entries::Entry;
use log_words::{BirthIndex, Contents, Told, is_refusal_at};
use protocol_data::Envelope;
use serde_json::Value;
use std::alloc::{AllocError, Global};

fn add_rows(
    alloc: Global,
    all: &mut Vec<Value>,
    contents: Contents,
    index: &BirthIndex,
    log: &[Entry],
    clock: usize,
    rows: &[Row],
    entry: &Entry,
    is_refused: bool,
) -> Result<(), AllocError>
    ensures { IsIndexOf index.now log.now → OnOk result (map view all.new.items
        ≡ map view all.old.items ++ flat_map (row_data contents (births log.now) clock entry.now is_refused) rows.now) }
{
    for row in rows {
        add_row(
            alloc, all, contents, index, log, clock, entry, is_refused, row,
        )?;
    }
    Ok(())
}

#[tactic(auto, unfolding(crate::specs::Entries::entry_data))]
fn add_entry(
    alloc: Global,
    all: &mut Vec<Value>,
    contents: Contents,
    index: &BirthIndex,
    log: &[Entry],
    clock: usize,
    rows: &[Row],
    entry: &Entry,
    is_refused: bool,
) -> Result<(), AllocError>
    ensures { IsIndexOf index.now log.now → OnOk result (map view all.new.items
        ≡ map view all.old.items ++ entry_data contents (births log.now) clock rows.now entry.now is_refused) }
{
    add_rows(
        alloc, all, contents, index, log, clock, rows, entry, is_refused,
    )?;
    add_marks(alloc, all, clock, entry, is_refused)
}

/// Adds what an entry adds in the rows, and then what it adds of messages.
#[tactic(auto, unfolding(crate::specs::Entries::whole_data))]
fn add_whole(
    alloc: Global,
    all: &mut Vec<Value>,
    contents: Contents,
    index: &BirthIndex,
    log: &[Entry],
    envelopes: &[Envelope],
    sent: &[usize],
    arrivals: &[usize],
    clock: usize,
    rows: &[Row],
    entry: &Entry,
    is_refused: bool,
) -> Result<(), AllocError>
    ensures { IsIndexOf index.now log.now → OnOk result (map view all.new.items ≡ map view all.old.items
        ++ whole_data contents (births log.now) envelopes.now sent.now arrivals.now clock rows.now entry.now is_refused) }
{
    add_entry(
        alloc, all, contents, index, log, clock, rows, entry, is_refused,
    )?;
    add_arrows(
        alloc, all, envelopes, sent, arrivals, rows, clock, entry, is_refused,
    )
}

fn add_all_open(
    alloc: Global,
    all: &mut Vec<Value>,
    contents: Contents,
    index: &BirthIndex,
    log: &[Entry],
    clock: usize,
    rows: &[Row],
) -> Result<(), AllocError>
    ensures { IsIndexOf index.now log.now → OnOk result
        (map view all.new.items ≡ map view all.old.items ++ flat_map (open_data contents (births log.now) clock) rows.now) }
{
    for row in rows {
        add_open(alloc, all, contents, index, log, clock, row)?;
    }
    Ok(())
}

fn add_each(
    alloc: Global,
    all: &mut Vec<Value>,
    contents: Contents,
    index: &BirthIndex,
    log: &[Entry],
    envelopes: &[Envelope],
    sent: &[usize],
    arrivals: &[usize],
) -> Result<(), AllocError>
    requires { IsIndexOf index.now log.now }
    ensures { OnOk result (map view all.new.items ≡ map view all.old.items
        ++ entries_data contents (births log.now) envelopes.now sent.now arrivals.now nothing_told [] log.now) }
{
    let mut told = Told::new(alloc);
    let mut rows = Vec::new(alloc);
    for (place, entry) in log.iter().enumerate() {
        let is_refused = is_refusal_at(log, place + 1);
        told.note(entry, is_refused)?;
        add_whole(
            alloc,
            all,
            contents,
            index,
            log,
            envelopes,
            sent,
            arrivals,
            told.events,
            &rows,
            entry,
            is_refused,
        )?;
        rows = rows_after(alloc, &told, entry, is_refused, &rows)?;
    }
    add_all_open(alloc, all, contents, index, log, told.events, &rows)
}

/// What the entries of a log add, where `arrivals` has for each message the event that delivered it first.
pub fn add_entries(
    alloc: Global,
    all: &mut Vec<Value>,
    contents: Contents,
    log: &[Entry],
    envelopes: &[Envelope],
    sent: &[usize],
    arrivals: &[usize],
) -> Result<(), AllocError>
    ensures { OnOk result (map view all.new.items ≡ map view all.old.items
        ++ entries_data contents (births log.now) envelopes.now sent.now arrivals.now nothing_told [] log.now) }
{
    let index = BirthIndex::of(alloc, log)?;
    let added = add_each(alloc, all, contents, &index, log, envelopes, sent, arrivals);
    drop(index);
    added
}
