// What keeps an attempt from going on, in sentences.

ghost use Rattle.std.specs.Prelude.{◌≡◌, ◌++◌, [], OnErr, OnOk, string_bytes};
ghost use Rattle.event_log.specs.Events.{from_one};
ghost use Rattle.log_words.specs.Index.{IsIndexOf};
ghost use Rattle.waits.specs.Tables.{holders_at};
ghost use Rattle.main_text.specs.Links.{dead_text, death_when, job_text, kept_text};
ghost use Rattle.main_text.specs.Links.{envelope_note, envelope_text, link_text, links_text, message_text, node_untold_text};
ghost use Rattle.main_text.specs.Links.{ready_text, released_text, remedy_text, rest_text, slot_text, untold_note};
ghost use Rattle.main_text.specs.Links.{untold_text, workers_text};

use crate::attempts::{write_ask, write_end, write_fetch, write_hold, write_run, write_wait};
use crate::endpoints::{write_endpoint, write_node, write_owner, write_worker, write_workers};
use crate::happenings::{Happening, write_when_last, write_when_some};
use ids::{NodeId, ObjectId, WorkerId};
use log_entries::{Entry, Event};
use log_words::{BirthIndex, Contents};
use message_text::message_kind;
use protocol_data::{ClusterState, Envelope};
use report::or_no_text;
use std::alloc::{AllocError, Global};
use waits::{Link, envelope_at, holders_at};
use why_text::death_of;

/// Writes the event that would let it go on.
#[tactic(auto, unfolding(crate::specs::Links::remedy_text))]
fn write_remedy(text: &mut String, event: Event) -> Result<(), AllocError>
    ensures { OnOk result (string_bytes text.new ≡ string_bytes text.old ++ remedy_text event) }
{
    write!(text, ": {event} would let it go on.\n")
}

/// Writes when the worker died.
#[tactic(auto, unfolding(crate::specs::Links::death_when))]
fn write_death_when(
    alloc: Global,
    text: &mut String,
    log: &[Entry],
    lines: &[usize],
    worker: WorkerId,
) -> Result<(), AllocError>
    ensures { OnOk result (string_bytes text.new ≡ string_bytes text.old ++ death_when log.now lines.now worker) }
{
    let death = death_of(alloc, log, lines, worker.0)?;
    write_when_some(text, death)
}

fn write_dead(
    alloc: Global,
    text: &mut String,
    log: &[Entry],
    lines: &[usize],
    worker: WorkerId,
) -> Result<(), AllocError>
    ensures { OnOk result (string_bytes text.new ≡ string_bytes text.old ++ dead_text log.now lines.now worker) }
{
    write_worker(text, worker)?;
    text.push_str(" died")?;
    write_death_when(alloc, text, log, lines, worker)?;
    text.push_str(": no event lets it go on.\n")
}

fn write_ready(text: &mut String, worker: WorkerId) -> Result<(), AllocError>
    ensures { OnOk result (string_bytes text.new ≡ string_bytes text.old ++ ready_text worker) }
{
    write_worker(text, worker)?;
    text.push_str(" is ready")?;
    write_remedy(text, Event::Claim(worker))
}

fn write_job(
    text: &mut String,
    log: &[Entry],
    lines: &[usize],
    whole: &ClusterState,
    worker: WorkerId,
    job: u64,
) -> Result<(), AllocError>
    ensures { OnOk result (string_bytes text.new ≡ string_bytes text.old ++ job_text log.now lines.now whole.now worker job) }
{
    write_worker(text, worker)?;
    text.push_str(" took job ")?;
    write!(text, "{job}")?;
    write_when_last(text, whole, lines, log, &Happening::Claims(worker))?;
    write_remedy(text, Event::Commit(job))?;
    Ok(())
}

/// Writes who has a slot of the node.
fn write_holders(text: &mut String, whole: &ClusterState, node: NodeId) -> Result<(), AllocError>
    ensures { OnOk result (string_bytes text.new ≡ string_bytes text.old ++ workers_text (holders_at whole.now node)) }
{
    let slot_holders = holders_at(whole, node);
    write_workers(text, slot_holders)
}

fn write_slot(
    text: &mut String,
    whole: &ClusterState,
    worker: WorkerId,
    node: NodeId,
) -> Result<(), AllocError>
    ensures { OnOk result (string_bytes text.new ≡ string_bytes text.old ++ slot_text whole.now worker node) }
{
    write_worker(text, worker)?;
    text.push_str(" waits for a slot of ")?;
    write_node(text, node)?;
    text.push_str(", taken by ")?;
    write_holders(text, whole, node)?;
    text.push_str(".\n")?;
    Ok(())
}

fn write_kept(text: &mut String, worker: WorkerId) -> Result<(), AllocError>
    ensures { OnOk result (string_bytes text.new ≡ string_bytes text.old ++ kept_text worker) }
{
    write_worker(text, worker)?;
    text.push_str(" keeps its slot, and nothing comes to it any more")?;
    write_remedy(text, Event::Kill(worker))
}

fn write_envelope(text: &mut String, envelope: &Envelope) -> Result<(), AllocError>
    ensures { OnOk result (string_bytes text.new ≡ string_bytes text.old ++ envelope_text envelope.now) }
{
    text.push_str(" (")?;
    text.push_str(message_kind(&envelope.message))?;
    text.push_str(", from ")?;
    write_endpoint(text, envelope.sender)?;
    text.push_str(" to ")?;
    write_endpoint(text, envelope.receiver)?;
    text.push_str(")")
}

fn write_envelope_at(text: &mut String, whole: &ClusterState, number: u64) -> Result<(), AllocError>
    ensures { OnOk result (string_bytes text.new ≡ string_bytes text.old ++ envelope_note (from_one whole.now.network number)) }
{
    let Some(envelope) = envelope_at(whole, number) else {
        return Ok(());
    };
    write_envelope(text, envelope)
}

fn write_message(text: &mut String, whole: &ClusterState, number: u64) -> Result<(), AllocError>
    ensures { OnOk result (string_bytes text.new ≡ string_bytes text.old ++ message_text whole.now number) }
{
    write!(text, "Message {number}")?;
    write_envelope_at(text, whole, number)?;
    text.push_str(" has not arrived")?;
    write_remedy(text, Event::Deliver(number))?;
    Ok(())
}

#[tactic(auto, unfolding(crate::specs::Links::untold_note))]
fn write_untold_note(text: &mut String, worker: WorkerId) -> Result<(), AllocError>
    ensures { OnOk result (string_bytes text.new ≡ string_bytes text.old ++ untold_note worker) }
{
    text.push_str(", and ")?;
    write_worker(text, worker)?;
    text.push_str(" has not been told")?;
    Ok(())
}

fn write_untold(
    alloc: Global,
    text: &mut String,
    log: &[Entry],
    lines: &[usize],
    worker: WorkerId,
    dead: WorkerId,
) -> Result<(), AllocError>
    ensures { OnOk result (string_bytes text.new ≡ string_bytes text.old ++ untold_text log.now lines.now worker dead) }
{
    write_worker(text, dead)?;
    text.push_str(" died")?;
    write_death_when(alloc, text, log, lines, dead)?;
    write_untold_note(text, worker)?;
    write_remedy(text, Event::Notice { worker, dead })
}

fn write_node_untold(
    text: &mut String,
    log: &[Entry],
    lines: &[usize],
    whole: &ClusterState,
    worker: WorkerId,
    dead: NodeId,
) -> Result<(), AllocError>
    ensures { OnOk result
        (string_bytes text.new ≡ string_bytes text.old ++ node_untold_text log.now lines.now whole.now worker dead) }
{
    write_node(text, dead)?;
    text.push_str(" died")?;
    write_when_last(text, whole, lines, log, &Happening::NodeDies(dead))?;
    write_untold_note(text, worker)?;
    write_remedy(text, Event::NoticeNode { worker, dead })?;
    Ok(())
}

fn write_released(
    text: &mut String,
    log: &[Entry],
    lines: &[usize],
    whole: &ClusterState,
    object: ObjectId,
) -> Result<(), AllocError>
    ensures { OnOk result (string_bytes text.new ≡ string_bytes text.old ++ released_text log.now lines.now whole.now object) }
{
    write_owner(text, object)?;
    text.push_str(" released ")?;
    write!(text, "{object}")?;
    write_when_last(text, whole, lines, log, &Happening::Releases(object))?;
    text.push_str(", and answers nobody: no event by itself lets it go on.\n")?;
    Ok(())
}

fn write_rest(text: &mut String, worker: WorkerId) -> Result<(), AllocError>
    ensures { OnOk result (string_bytes text.new ≡ string_bytes text.old ++ rest_text worker) }
{
    let event = Event::Tick(worker);
    text.push_str("Nothing that ")?;
    write_worker(text, worker)?;
    write!(text, " asked for is under way: {event} would ask again.\n")?;
    Ok(())
}

fn write_link(
    alloc: Global,
    text: &mut String,
    contents: Contents,
    index: &BirthIndex,
    log: &[Entry],
    lines: &[usize],
    whole: &ClusterState,
    link: &Link,
) -> Result<(), AllocError>
    ensures { IsIndexOf index.now log.now → OnOk result
        (string_bytes text.new ≡ string_bytes text.old ++ link_text contents log.now lines.now whole.now link.now) }
{
    match link {
        Link::IsDead(worker) => write_dead(alloc, text, log, lines, *worker),
        Link::CanGoOn(worker) => write_ready(text, *worker),
        Link::HasJob(worker, job) => write_job(text, log, lines, whole, *worker, *job),
        Link::LacksSlot(worker, node) => write_slot(text, whole, *worker, *node),
        Link::KeepsSlot(worker) => write_kept(text, *worker),
        Link::WaitsFor(worker, attempt, object) => {
            write_wait(
                text, contents, index, log, lines, whole, *worker, *attempt, *object,
            )
        }
        Link::FetchesFor(worker, attempt, object, node) => {
            write_fetch(
                text, contents, index, log, lines, whole, *worker, *attempt, *object, *node,
            )
        }
        Link::HasStopped(_, attempt) => write_end(text, index, log, lines, whole, *attempt),
        Link::HoldsBack(worker, holder, object) => write_hold(text, *worker, *holder, *object),
        Link::AskedFor(attempt, _, node) => write_ask(text, index, log, *attempt, *node),
        Link::RunsAt(attempt, worker, _) => {
            write_run(alloc, text, index, log, lines, whole, *attempt, *worker)
        }
        Link::UnderWay(number) => write_message(text, whole, *number),
        Link::Untold(worker, dead) => write_untold(alloc, text, log, lines, *worker, *dead),
        Link::NodeUntold(worker, dead) => {
            write_node_untold(text, log, lines, whole, *worker, *dead)
        }
        Link::WasReleased(object) => write_released(text, log, lines, whole, *object),
        Link::Resting(worker) => write_rest(text, *worker),
    }
}

fn add_links(
    alloc: Global,
    text: &mut String,
    contents: Contents,
    index: &BirthIndex,
    log: &[Entry],
    lines: &[usize],
    whole: &ClusterState,
    links: &[Link],
) -> Result<(), AllocError>
    ensures { IsIndexOf index.now log.now → OnOk result
        (string_bytes text.new ≡ string_bytes text.old ++ links_text contents log.now lines.now whole.now links.now) }
{
    for link in links {
        write_link(alloc, text, contents, index, log, lines, whole, link)?;
    }
    Ok(())
}

/// Writes a sentence or two for each link. An error is want of memory, and then nothing is left of the text.
pub fn write_links(
    alloc: Global,
    text: &mut String,
    contents: Contents,
    index: &BirthIndex,
    log: &[Entry],
    lines: &[usize],
    whole: &ClusterState,
    links: &[Link],
) -> Result<(), AllocError>
    ensures done { IsIndexOf index.now log.now → OnOk result
        (string_bytes text.new ≡ string_bytes text.old ++ links_text contents log.now lines.now whole.now links.now) }
    ensures err { OnErr result (string_bytes text.new ≡ []) }
{
    or_no_text(
        add_links(alloc, text, contents, index, log, lines, whole, links),
        text,
    )
}
