// Which worker runs which attempt up to each event, a row for each.

ghost use Rattle.std.specs.Prelude.{◌≡◌, IfOk};
ghost use Rattle.log_words.specs.Told.{told_of};
ghost use Rattle.timeline.specs.Rows.{after_event, begins, is_worker, row_after, runs, stopped, with_waits};
ghost use Rattle.timeline.specs.Entries.{rows_after};

use ids::{AttemptId, NodeId, WorkerId};
use log_entries::{Entry, Event};
use log_words::{Told, worker_of_job};
use std::alloc::{AllocError, Global};

/// An attempt that a worker runs: the event at which it began, and where it waits for a get, the event since which it does.
#[derive(Clone, Copy)]
pub struct Running {
    pub attempt: AttemptId,
    /// The number of the event at which it began.
    pub since: usize,
    /// The number of the event since which it waits for a get, where it does.
    pub waits: Option<usize>,
}

/// A worker, its node, and what it runs.
#[derive(Clone, Copy)]
pub struct Row {
    pub worker: WorkerId,
    pub node: NodeId,
    /// What it runs now, if it runs anything.
    pub running: Option<Running>,
}

/// Whether the row's worker runs the attempt.
#[tactic(auto, unfolding(ids::specs::Attempts::same_attempt, meaning::specs::Births::same_id))]
pub fn runs(attempt: AttemptId, row: &Row) -> bool
    ensures { result ≡ runs attempt row.now }
{
    let Some(running) = &row.running else {
        return false;
    };
    running.attempt.object.owner.0 == attempt.object.owner.0
        && running.attempt.object.serial == attempt.object.serial
        && running.attempt.number == attempt.number
}

/// The row, where what it runs waits since the event, or no longer waits.
fn with_waits(row: &Row, waits: Option<usize>) -> Row
    ensures { result ≡ with_waits row.now waits }
{
    let Some(running) = &row.running else {
        return *row;
    };
    Row {
        worker: row.worker,
        node: row.node,
        running: Some(Running {
            attempt: running.attempt,
            since: running.since,
            waits,
        }),
    }
}

/// The row, where nothing is run.
fn stopped(row: &Row) -> Row
    ensures { result ≡ stopped row.now }
{
    Row {
        worker: row.worker,
        node: row.node,
        running: None,
    }
}

fn begins(row: &Row, attempt: AttemptId, clock: usize) -> Row
    ensures { result ≡ begins row.now attempt clock }
{
    Row {
        worker: row.worker,
        node: row.node,
        running: Some(Running {
            attempt,
            since: clock,
            waits: None,
        }),
    }
}

fn is_worker(worker: Option<WorkerId>, row: &Row) -> bool
    ensures { result ≡ is_worker worker row.now }
{
    match worker {
        Some(worker) => worker.0 == row.worker.0,
        None => false,
    }
}

/// The row after an accepted event.
fn after_event(told: &Told, event: &Event, row: &Row) -> Row
    ensures { result ≡ after_event (told_of told.now) event.now row.now }
{
    match event {
        Event::Commit(job) => {
            if is_worker(worker_of_job(&told.jobs, *job), row) {
                return with_waits(row, Some(told.events));
            }
            *row
        }
        Event::Kill(worker) => {
            if worker.0 == row.worker.0 {
                return stopped(row);
            }
            *row
        }
        Event::KillNode(node) => {
            if node.0 == row.node.0 {
                return stopped(row);
            }
            *row
        }
        _ => *row,
    }
}

/// The row after an entry, which is among what was told.
fn row_after(told: &Told, entry: &Entry, is_refused: bool, row: &Row) -> Row
    ensures { result ≡ row_after (told_of told.now) entry.now is_refused row.now }
{
    match entry {
        Entry::Begun { attempt, worker } => {
            if worker.0 == row.worker.0 {
                return begins(row, *attempt, told.events);
            }
            *row
        }
        Entry::Got { attempt, .. } => {
            if runs(*attempt, row) {
                return with_waits(row, None);
            }
            *row
        }
        Entry::Ended { attempt, .. } | Entry::Faulted { attempt, .. } => {
            if runs(*attempt, row) {
                return stopped(row);
            }
            *row
        }
        Entry::In { event, .. } => {
            if is_refused {
                return *row;
            }
            after_event(told, event, row)
        }
        _ => *row,
    }
}

/// The rows after an entry, with one for a worker that it opens.
#[tactic(auto, unfolding(crate::specs::Entries::rows_after))]
pub fn rows_after(
    alloc: Global,
    told: &Told,
    entry: &Entry,
    is_refused: bool,
    rows: &[Row],
) -> Result<Vec<Row>, AllocError>
    ensures { IfOk result (λ new. new.items ≡ rows_after (told_of told.now) rows.now entry.now is_refused) }
{
    let mut new = Vec::new(alloc);
    for row in rows {
        new.push(row_after(told, entry, is_refused, row))?;
    }
    if let Entry::Opened { worker, node } = entry {
        new.push(Row {
            worker: *worker,
            node: *node,
            running: None,
        })?;
        return Ok(new);
    }
    Ok(new)
}
