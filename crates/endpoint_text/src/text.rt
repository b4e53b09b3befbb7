// Why a worker or a node is as it is.

ghost use Rattle.std.specs.Prelude.{◌≡◌, ◌++◌, IfOk, OnOk, length, option_copied, string_bytes};
ghost use Rattle.event_log.specs.Events.{from_one};
ghost use Rattle.event_log.specs.Words.{opened};
ghost use Rattle.log_words.specs.Index.{IsIndexOf};
ghost use Rattle.why_text.specs.Moments.{first_moment};
ghost use Rattle.endpoint_text.specs.Nodes as nodes;
ghost use Rattle.endpoint_text.specs.Text.{no_node, no_worker, node_account, node_account_of, node_told, opened_note, worker_account, worker_told};
ghost use Rattle.endpoint_text.specs.Told.{told};
ghost use Rattle.endpoint_text.specs.Workers as workers;

use crate::nodes::write_node_sentence;
use crate::present::write_present;
use crate::sites::{Site, write_first_note};
use crate::workers::{Subject, write_owned, write_worker_sentence};
use ids::{NodeId, WorkerId};
use log_entries::Entry;
use log_text::{node_of, opened};
use log_words::{BirthIndex, Contents, is_refusal_at};
use main_text::{write_node, write_worker};
use protocol_data::{ClusterState, Envelope};
use std::alloc::{AllocError, Global};
use waits::node_at;
use why_text::Moment;

fn write_no_worker(text: &mut String, worker: WorkerId) -> Result<(), AllocError>
    ensures { OnOk result (string_bytes text.new ≡ string_bytes text.old ++ no_worker worker) }
{
    text.push_str("There is no ")?;
    write_worker(text, worker)?;
    text.push_str(".\n")?;
    Ok(())
}

#[tactic(auto, unfolding(crate::specs::Text::opened_note))]
fn write_opened_note(
    text: &mut String,
    worker: WorkerId,
    home: Option<u32>,
) -> Result<(), AllocError>
    ensures { OnOk result (string_bytes text.new ≡ string_bytes text.old ++ opened_note worker home) }
{
    match home {
        Some(_) => Ok(()),
        None => write_no_worker(text, worker),
    }
}

/// Writes that there is no such worker, where the log opens none of that number.
fn write_unopened(
    alloc: Global,
    text: &mut String,
    log: &[Entry],
    worker: WorkerId,
) -> Result<(), AllocError>
    ensures { OnOk result (string_bytes text.new ≡ string_bytes text.old ++ opened_note worker (from_one (opened log.now) worker)) }
{
    let nodes = opened(alloc, log)?;
    write_opened_note(text, worker, node_of(&nodes, worker.0))
}

fn write_worker_sentences(
    alloc: Global,
    text: &mut String,
    contents: Contents,
    index: &BirthIndex,
    log: &[Entry],
    lines: &[usize],
    envelopes: &[Envelope],
    subject: &Subject,
) -> Result<(), AllocError>
    requires { IsIndexOf index.now log.now }
    ensures { OnOk result (string_bytes text.new ≡ string_bytes text.old ++ told (workers.worker_sentence contents log.now lines.now
        envelopes.now (workers.seen_of subject.now)) lines.now log.now 0 first_moment log.now) }
{
    let mut moment = Moment::first();
    for (place, entry) in log.iter().enumerate() {
        let is_refused = is_refusal_at(log, place + 1);
        moment = moment.after(lines, entry);
        let before = &log[..place];
        write_worker_sentence(
            alloc, text, contents, index, log, lines, envelopes, subject, before, &moment, entry,
            is_refused,
        )?;
    }
    Ok(())
}

/// Writes what the log says of the worker.
fn write_worker_told(
    alloc: Global,
    text: &mut String,
    contents: Contents,
    index: &BirthIndex,
    log: &[Entry],
    lines: &[usize],
    whole: &ClusterState,
    worker: WorkerId,
) -> Result<(), AllocError>
    requires { IsIndexOf index.now log.now }
    ensures { OnOk result (string_bytes text.new ≡ string_bytes text.old ++ worker_told contents log.now lines.now whole.now worker) }
{
    let envelopes = whole.network.as_slice();
    let subject = Subject::of(alloc, log, worker)?;
    let written = write_worker_sentences(
        alloc, text, contents, index, log, lines, envelopes, &subject,
    );
    drop(subject);
    written
}

#[tactic(auto, unfolding(crate::specs::Text::worker_account))]
fn write_worker_account_by(
    alloc: Global,
    text: &mut String,
    contents: Contents,
    index: &BirthIndex,
    log: &[Entry],
    lines: &[usize],
    whole: &ClusterState,
    worker: WorkerId,
) -> Result<(), AllocError>
    requires { IsIndexOf index.now log.now }
    ensures { OnOk result (string_bytes text.new ≡ string_bytes text.old ++ worker_account contents log.now lines.now whole.now worker) }
{
    write_unopened(alloc, text, log, worker)?;
    write_worker_told(alloc, text, contents, index, log, lines, whole, worker)?;
    write_owned(alloc, text, contents, log, worker)?;
    write_present(alloc, text, contents, index, log, lines, whole, worker)
}

fn write_worker_account(
    alloc: Global,
    text: &mut String,
    contents: Contents,
    log: &[Entry],
    lines: &[usize],
    whole: &ClusterState,
    worker: WorkerId,
) -> Result<(), AllocError>
    ensures { OnOk result (string_bytes text.new ≡ string_bytes text.old ++ worker_account contents log.now lines.now whole.now worker) }
{
    let index = BirthIndex::of(alloc, log)?;
    let written = write_worker_account_by(alloc, text, contents, &index, log, lines, whole, worker);
    drop(index);
    written
}

/// Why a worker is as it is, in sentences, in the order of the log: on which node it was opened and for which attempt, the attempts that it ran and
/// how each ended, of which deaths it learned, what it gave up, its own death with the attempts that broke, and who learned of it, each with its
/// event and the event's line. Behind that, what it made, and of a live worker what its attempt waits for, down to the event that would let it
/// go on. `lines` are the lines of the event file from which the events came, in their order; an event behind the last has no line.
///
/// It is made of any log and any tables and messages. A worker that was never opened has one sentence, that there is none.
pub fn worker_text(
    alloc: Global,
    contents: Contents,
    log: &[Entry],
    lines: &[usize],
    whole: &ClusterState,
    worker: WorkerId,
) -> Result<String, AllocError>
    ensures { IfOk result (λ text. string_bytes text ≡ worker_account contents log.now lines.now whole.now worker) }
{
    let mut text = String::new(alloc);
    write_worker_account(alloc, &mut text, contents, log, lines, whole, worker)?;
    Ok(text)
}

fn write_no_node(text: &mut String, node: NodeId) -> Result<(), AllocError>
    ensures { OnOk result (string_bytes text.new ≡ string_bytes text.old ++ no_node node) }
{
    text.push_str("There is no ")?;
    write_node(text, node)?;
    text.push_str(".\n")?;
    Ok(())
}

fn write_node_sentences(
    alloc: Global,
    text: &mut String,
    contents: Contents,
    index: &BirthIndex,
    log: &[Entry],
    lines: &[usize],
    envelopes: &[Envelope],
    site: &Site,
) -> Result<(), AllocError>
    requires { IsIndexOf index.now log.now }
    ensures { OnOk result (string_bytes text.new ≡ string_bytes text.old ++ told (nodes.node_sentence contents log.now lines.now envelopes.now
        (nodes.seen_of site.now)) lines.now log.now 0 first_moment log.now) }
{
    let mut moment = Moment::first();
    for (place, entry) in log.iter().enumerate() {
        let is_refused = is_refusal_at(log, place + 1);
        moment = moment.after(lines, entry);
        let before = &log[..place];
        write_node_sentence(
            alloc, text, contents, index, log, lines, envelopes, site, before, &moment, entry,
            is_refused,
        )?;
    }
    Ok(())
}

/// Writes how the node came, and what the log, of which that is the index, says of it.
fn write_node_told_by(
    alloc: Global,
    text: &mut String,
    contents: Contents,
    index: &BirthIndex,
    log: &[Entry],
    lines: &[usize],
    whole: &ClusterState,
    site: &Site,
) -> Result<(), AllocError>
    requires { IsIndexOf index.now log.now }
    ensures { OnOk result (string_bytes text.new ≡ string_bytes text.old
        ++ node_told contents log.now lines.now whole.now (nodes.seen_of site.now)) }
{
    let envelopes = whole.network.as_slice();
    write_first_note(text, log, site)?;
    write_node_sentences(alloc, text, contents, index, log, lines, envelopes, site)
}

/// Writes how the node came, and what the log says of it.
fn write_node_told(
    alloc: Global,
    text: &mut String,
    contents: Contents,
    log: &[Entry],
    lines: &[usize],
    whole: &ClusterState,
    site: &Site,
) -> Result<(), AllocError>
    ensures { OnOk result (string_bytes text.new ≡ string_bytes text.old
        ++ node_told contents log.now lines.now whole.now (nodes.seen_of site.now)) }
{
    let index = BirthIndex::of(alloc, log)?;
    let written = write_node_told_by(alloc, text, contents, &index, log, lines, whole, site);
    drop(index);
    written
}

#[tactic(auto, unfolding(crate::specs::Text::node_account))]
fn write_node_account(
    alloc: Global,
    text: &mut String,
    contents: Contents,
    log: &[Entry],
    lines: &[usize],
    whole: &ClusterState,
    node: NodeId,
) -> Result<(), AllocError>
    ensures { OnOk result (string_bytes text.new ≡ string_bytes text.old ++ node_account contents log.now lines.now whole.now node) }
{
    if node_at(whole, node).is_none() {
        return write_no_node(text, node);
    }
    let site = Site::of(alloc, log, whole.nodes.len(), node)?;
    let written = write_node_told(alloc, text, contents, log, lines, whole, &site);
    drop(site);
    written
}

/// Why a node is as it is, in sentences, in the order of the log: when it came, the workers that it opened and for what, the deaths of these, the
/// losses of copies at it, its own death with the workers, the attempts that broke and the primary copies that were lost, who learned of it, and
/// what was begun again of what ran on it, each with its event and the event's line. `lines` are the lines of the event file from which the events
/// came, in their order; an event behind the last has no line.
///
/// It is made of any log and any tables and messages. A node that the tables don't have has one sentence, that there is none.
pub fn node_text(
    alloc: Global,
    contents: Contents,
    log: &[Entry],
    lines: &[usize],
    whole: &ClusterState,
    node: NodeId,
) -> Result<String, AllocError>
    ensures { IfOk result (λ text. string_bytes text ≡ node_account contents log.now lines.now whole.now node) }
{
    let mut text = String::new(alloc);
    write_node_account(alloc, &mut text, contents, log, lines, whole, node)?;
    Ok(text)
}
