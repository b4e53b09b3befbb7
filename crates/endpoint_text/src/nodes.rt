// What a log says of a node, entry by entry.

ghost use Rattle.std.specs.Prelude.{◌≡◌, ◌++◌, [], IfOk, OnOk, codes, if◌then◌else◌, string_bytes};
ghost use Rattle.std.specs.List.{flat_map};
ghost use Rattle.log_words.specs.Index.{IsIndexOf};
ghost use Rattle.main_text.specs.Links.{workers_text};
ghost use Rattle.why_text.specs.Again.{one_before};
ghost use Rattle.why_text.specs.Moments.{moment_of};
ghost use Rattle.endpoint_text.specs.Nodes.{broke_line, broken_in, broken_lines, death_line, dying, dying_in, entry_sentence, event_sentence};
ghost use Rattle.endpoint_text.specs.Nodes.{is_again, is_broken, node_death, node_sentence, seen_of, with_note, worker_death};

use crate::copies::write_lost;
use crate::deaths::{ran_on, write_death, write_opened};
use crate::lists::is_one_of;
use crate::sites::{Site, is_on, joins_now, write_join};
use ids::{AttemptId, NodeId, WorkerId};
use log_entries::{Entry, Event};
use log_text::write_named;
use log_words::{BirthIndex, Contents};
use main_text::{write_worker, write_workers};
use protocol_data::Envelope;
use std::alloc::{AllocError, Global};
use why_text::{
    Moment, has_ended, is_killed_in, write_began, write_copies, write_dead_node, write_node_notice,
    write_when,
};

/// Whether the attempt on the worker breaks with the node.
fn is_broken(log: &[Entry], site: &Site, attempt: AttemptId, worker: u32) -> bool
    ensures { result ≡ is_broken log.now (seen_of site.now) attempt worker }
{
    if !is_on(&site.nodes, site.node, worker) {
        return false;
    }
    !is_killed_in(log, worker) && !has_ended(log, attempt)
}

fn write_broke_line(
    text: &mut String,
    index: &BirthIndex,
    log: &[Entry],
    attempt: AttemptId,
    worker: WorkerId,
) -> Result<(), AllocError>
    ensures { IsIndexOf index.now log.now → OnOk result
        (string_bytes text.new ≡ string_bytes text.old ++ broke_line log.now attempt worker) }
{
    write_named(text, index, log, attempt)?;
    text.push_str(" broke on ")?;
    write_worker(text, worker)?;
    text.push_str(".\n")
}

fn write_broken_in(
    text: &mut String,
    index: &BirthIndex,
    log: &[Entry],
    site: &Site,
    entry: &Entry,
) -> Result<(), AllocError>
    ensures { IsIndexOf index.now log.now → OnOk result
        (string_bytes text.new ≡ string_bytes text.old ++ broken_in log.now (seen_of site.now) entry.now) }
{
    let Entry::Begun { attempt, worker } = entry else {
        return Ok(());
    };
    if is_broken(log, site, *attempt, worker.0) {
        return write_broke_line(text, index, log, *attempt, *worker);
    }
    Ok(())
}

/// Writes which attempts break with the node.
fn write_broken_lines(
    text: &mut String,
    index: &BirthIndex,
    log: &[Entry],
    site: &Site,
) -> Result<(), AllocError>
    ensures { IsIndexOf index.now log.now → OnOk result
        (string_bytes text.new ≡ string_bytes text.old ++ broken_lines log.now (seen_of site.now)) }
{
    for entry in log {
        write_broken_in(text, index, log, site, entry)?;
    }
    Ok(())
}

fn add_dying(
    workers: &mut Vec<WorkerId>,
    log: &[Entry],
    node: NodeId,
    entry: &Entry,
) -> Result<(), AllocError>
    ensures { OnOk result (workers.new.items ≡ workers.old.items ++ dying_in log.now node entry.now) }
{
    let Entry::Opened { worker, node: on } = entry else {
        return Ok(());
    };
    if on.is(node) && !is_killed_in(log, worker.0) {
        return Ok(workers.push(*worker)?);
    }
    Ok(())
}

/// The workers that die with the node.
fn dying(alloc: Global, log: &[Entry], node: NodeId) -> Result<Vec<WorkerId>, AllocError>
    ensures { IfOk result (λ workers. workers.items ≡ dying log.now node) }
{
    let mut workers = Vec::new(alloc);
    for entry in log {
        add_dying(&mut workers, log, node, entry)?;
    }
    Ok(workers)
}

fn write_with_some(text: &mut String, workers: &[WorkerId]) -> Result<(), AllocError>
    ensures { OnOk result (string_bytes text.new ≡ string_bytes text.old ++ (codes ", and with it " ++ workers_text workers.now)) }
{
    text.push_str(", and with it ")?;
    write_workers(text, workers)?;
    Ok(())
}

fn write_with(text: &mut String, workers: &[WorkerId]) -> Result<(), AllocError>
    ensures { OnOk result (string_bytes text.new ≡ string_bytes text.old ++ with_note workers.now) }
{
    let [_, ..] = workers else {
        return Ok(());
    };
    write_with_some(text, workers)
}

/// Writes that the node died, and who with it.
fn write_death_line(
    alloc: Global,
    text: &mut String,
    log: &[Entry],
    moment: &Moment,
    node: NodeId,
) -> Result<(), AllocError>
    ensures { OnOk result (string_bytes text.new ≡ string_bytes text.old ++ death_line log.now (moment_of moment.now) node) }
{
    let workers = dying(alloc, log, node)?;
    write_dead_node(text, node)?;
    write_when(text, moment)?;
    write_with(text, &workers)?;
    text.push_str(".\n")
}

/// Writes that the node died, and what with it.
#[tactic(auto, unfolding(crate::specs::Nodes::node_death))]
fn write_node_death(
    alloc: Global,
    text: &mut String,
    contents: Contents,
    index: &BirthIndex,
    log: &[Entry],
    site: &Site,
    before: &[Entry],
    moment: &Moment,
) -> Result<(), AllocError>
    ensures { IsIndexOf index.now log.now → OnOk result (string_bytes text.new ≡ string_bytes text.old
        ++ node_death contents log.now (seen_of site.now) before.now (moment_of moment.now)) }
{
    write_death_line(alloc, text, log, moment, site.node)?;
    write_broken_lines(text, index, log, site)?;
    write_lost(alloc, text, contents, index, log, site, before)
}

fn write_worker_death(
    alloc: Global,
    text: &mut String,
    index: &BirthIndex,
    log: &[Entry],
    moment: &Moment,
    worker: WorkerId,
) -> Result<(), AllocError>
    ensures { IsIndexOf index.now log.now → OnOk result
        (string_bytes text.new ≡ string_bytes text.old ++ worker_death log.now (moment_of moment.now) worker) }
{
    let attempts = ran_on(alloc, log, worker)?;
    write_death(text, index, log, moment, worker, &attempts)
}

/// Writes what an event that was taken says of the node.
fn write_event(
    alloc: Global,
    text: &mut String,
    contents: Contents,
    index: &BirthIndex,
    log: &[Entry],
    site: &Site,
    before: &[Entry],
    moment: &Moment,
    event: &Event,
) -> Result<(), AllocError>
    ensures { IsIndexOf index.now log.now → OnOk result (string_bytes text.new ≡ string_bytes text.old
        ++ event_sentence contents log.now (seen_of site.now) before.now (moment_of moment.now) event.now) }
{
    let about = site.node;
    match event {
        Event::Join => {
            if joins_now(log, site, before) {
                return write_join(text, moment, about);
            }
            Ok(())
        }
        Event::Kill(worker) => {
            if is_on(&site.nodes, about, worker.0) {
                return write_worker_death(alloc, text, index, log, moment, *worker);
            }
            Ok(())
        }
        Event::KillNode(node) => {
            if node.is(about) {
                return write_node_death(alloc, text, contents, index, log, site, before, moment);
            }
            Ok(())
        }
        Event::NoticeNode { worker, dead } => {
            if dead.is(about) {
                return write_node_notice(text, moment, *worker, *dead);
            }
            Ok(())
        }
        Event::Lose { node, object } => {
            if node.is(about) {
                return write_copies(text, moment, *node, " lost its copies of ", *object);
            }
            Ok(())
        }
        Event::Evict { node, object } => {
            if node.is(about) {
                let did = " dropped its secondary copies of ";
                return write_copies(text, moment, *node, did, *object);
            }
            Ok(())
        }
        _ => Ok(()),
    }
}

/// Whether it is a later attempt, whose one before ran on the node.
fn is_again(site: &Site, attempt: AttemptId) -> bool
    ensures { result ≡ is_again (seen_of site.now) attempt }
{
    if attempt.number == 0 {
        return false;
    }
    let before = AttemptId {
        object: attempt.object,
        number: attempt.number - 1,
    };
    is_one_of(&site.attempts, before)
}

/// Writes what the entry says of the node, where it came of an event.
fn write_entry(
    alloc: Global,
    text: &mut String,
    index: &BirthIndex,
    log: &[Entry],
    lines: &[usize],
    envelopes: &[Envelope],
    site: &Site,
    before: &[Entry],
    moment: &Moment,
    entry: &Entry,
) -> Result<(), AllocError>
    ensures { IsIndexOf index.now log.now → OnOk result (string_bytes text.new ≡ string_bytes text.old
        ++ entry_sentence log.now lines.now envelopes.now (seen_of site.now) before.now (moment_of moment.now) entry.now) }
{
    match entry {
        Entry::Opened { worker, node } => {
            if node.is(site.node) {
                return write_opened(text, index, log, envelopes, moment, *worker, *node);
            }
            Ok(())
        }
        Entry::Begun { attempt, worker } => {
            if is_again(site, *attempt) {
                return write_began(
                    alloc, text, index, log, before, lines, moment, *attempt, *worker,
                );
            }
            Ok(())
        }
        _ => Ok(()),
    }
}

fn write_event_unless(
    alloc: Global,
    text: &mut String,
    contents: Contents,
    index: &BirthIndex,
    log: &[Entry],
    site: &Site,
    before: &[Entry],
    moment: &Moment,
    event: &Event,
    is_refused: bool,
) -> Result<(), AllocError>
    ensures { IsIndexOf index.now log.now → OnOk result (string_bytes text.new ≡ string_bytes text.old
        ++ (if is_refused then [] else event_sentence contents log.now (seen_of site.now) before.now (moment_of moment.now) event.now)) }
{
    if is_refused {
        return Ok(());
    }
    write_event(
        alloc, text, contents, index, log, site, before, moment, event,
    )
}

/// Writes what the entry says of the node; `before` are the entries of the log before it, `lines` are the lines of the events, `envelopes` are the
/// run's messages, `moment` is that with the entry, and `is_refused` says of an event that it is refused.
#[tactic(auto, unfolding(crate::specs::Nodes::node_sentence))]
pub fn write_node_sentence(
    alloc: Global,
    text: &mut String,
    contents: Contents,
    index: &BirthIndex,
    log: &[Entry],
    lines: &[usize],
    envelopes: &[Envelope],
    site: &Site,
    before: &[Entry],
    moment: &Moment,
    entry: &Entry,
    is_refused: bool,
) -> Result<(), AllocError>
    ensures { IsIndexOf index.now log.now → OnOk result (string_bytes text.new ≡ string_bytes text.old ++ node_sentence contents log.now
        lines.now envelopes.now (seen_of site.now) before.now (moment_of moment.now) entry.now is_refused) }
{
    if let Entry::In { event, .. } = entry {
        return write_event_unless(
            alloc, text, contents, index, log, site, before, moment, event, is_refused,
        );
    }
    write_entry(
        alloc, text, index, log, lines, envelopes, site, before, moment, entry,
    )
}
