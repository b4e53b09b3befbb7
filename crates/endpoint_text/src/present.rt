// What a worker does now.

ghost use Rattle.std.specs.Prelude.{◌≡◌, ◌++◌, OnOk, string_bytes};
ghost use Rattle.log_words.specs.Index.{IsIndexOf};
ghost use Rattle.waits.specs.Links.{worker_links};
ghost use Rattle.main_text.specs.Links.{links_text};
ghost use Rattle.endpoint_text.specs.Present.{free_text, has_stopped, is_done, is_free, live_text, present_text};

use ids::WorkerId;
use log_entries::Entry;
use log_words::{BirthIndex, Contents};
use main_text::{write_links, write_worker};
use protocol_data::{ClusterState, Execution, Phase};
use std::alloc::{AllocError, Global};
use waits::{worker_at, worker_links};

fn has_stopped(phase: &Phase) -> bool
    ensures { result ≡ has_stopped phase.now }
{
    match phase {
        Phase::HasEnded(_) | Phase::HasFaulted(_) => true,
        _ => false,
    }
}

/// Whether the attempt is over, as its owner knows; main's, which has no other owner, once it has stopped.
fn is_done(worker: WorkerId, run: &Execution) -> bool
    ensures { result ≡ is_done worker run.now }
{
    if run.is_acknowledged {
        return true;
    }
    worker.0 == 1 && has_stopped(&run.phase)
}

/// Whether the worker has no attempt that is to go on.
fn is_free(worker: WorkerId, run: &Option<Execution>) -> bool
    ensures { result ≡ is_free worker run.now }
{
    match run {
        None => true,
        Some(run) => is_done(worker, run),
    }
}

fn write_free(text: &mut String, worker: WorkerId) -> Result<(), AllocError>
    ensures { OnOk result (string_bytes text.new ≡ string_bytes text.old ++ free_text worker) }
{
    write_worker(text, worker)?;
    text.push_str(" has nothing to do now.\n")
}

/// Writes what keeps the worker's attempt from going on.
fn write_worker_links(
    alloc: Global,
    text: &mut String,
    contents: Contents,
    index: &BirthIndex,
    log: &[Entry],
    lines: &[usize],
    whole: &ClusterState,
    worker: WorkerId,
) -> Result<(), AllocError>
    ensures { IsIndexOf index.now log.now → OnOk result (string_bytes text.new ≡ string_bytes text.old
        ++ links_text contents log.now lines.now whole.now (worker_links whole.now worker)) }
{
    let links = worker_links(alloc, whole, worker)?;
    write_links(alloc, text, contents, index, log, lines, whole, &links)
}

/// Writes what a live worker does.
fn write_live(
    alloc: Global,
    text: &mut String,
    contents: Contents,
    index: &BirthIndex,
    log: &[Entry],
    lines: &[usize],
    whole: &ClusterState,
    worker: WorkerId,
    is_free: bool,
) -> Result<(), AllocError>
    ensures { IsIndexOf index.now log.now → OnOk result (string_bytes text.new ≡ string_bytes text.old
        ++ live_text contents log.now lines.now whole.now worker is_free) }
{
    if is_free {
        return write_free(text, worker);
    }
    write_worker_links(alloc, text, contents, index, log, lines, whole, worker)
}

/// Writes what the worker does now, if it lives: that it has nothing to do, or what keeps its attempt from going on.
#[tactic(auto, unfolding(crate::specs::Present::present_text))]
pub fn write_present(
    alloc: Global,
    text: &mut String,
    contents: Contents,
    index: &BirthIndex,
    log: &[Entry],
    lines: &[usize],
    whole: &ClusterState,
    worker: WorkerId,
) -> Result<(), AllocError>
    ensures { IsIndexOf index.now log.now → OnOk result (string_bytes text.new ≡ string_bytes text.old
        ++ present_text contents log.now lines.now whole.now worker) }
{
    let Some(found) = worker_at(whole, worker) else {
        return Ok(());
    };
    if found.is_live {
        let is_free = is_free(worker, &found.run);
        return write_live(
            alloc, text, contents, index, log, lines, whole, worker, is_free,
        );
    }
    Ok(())
}
