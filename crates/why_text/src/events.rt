// What an event says of an object.

ghost use Rattle.std.specs.Prelude.{◌≡◌, ◌++◌, [], OnErr, OnOk, codes, if◌then◌else◌, map, string_bytes};
ghost use Rattle.std.specs.List.{flat_map, list_any};
ghost use Rattle.meaning.specs.Births.{same_id};
ghost use Rattle.why_text.specs.Moments.{moment_of};
ghost use Rattle.why_text.specs.Runs.{run_seen, seen_of};
ghost use Rattle.why_text.specs.Events.{concerns, concerns_node, copies_head, copies_text, dead_node_text, dead_text};
ghost use Rattle.why_text.specs.Events.{event_sentence, fate_at, fate_on, fate_text, fate_unless, is_at, is_of_task, is_on};
ghost use Rattle.why_text.specs.Events.{kill_text, learned_text, node_kill_text, node_note, node_notice_text};
ghost use Rattle.why_text.specs.Events.{notice_text, owner_note, owner_too, worker_note};

use crate::moments::{Moment, write_when};
use crate::notes::write_owner_of;
use crate::runs::{Run, Subject, is_node};
use ids::{AttemptId, NodeId, ObjectId, WorkerId};
use log_entries::Event;
use log_text::is_among;
use report::or_no_text;
use std::alloc::AllocError;

#[tactic(auto, unfolding(crate::specs::Events::fate_text))]
fn write_fate(text: &mut String, attempt: AttemptId, is_open: bool) -> Result<(), AllocError>
    ensures { OnOk result (string_bytes text.new ≡ string_bytes text.old ++ fate_text attempt is_open) }
{
    if is_open {
        return write!(text, ", and {attempt} broke");
    }
    write!(text, ", after {attempt} had ended there")
}

fn write_fate_on(text: &mut String, worker: u32, run: &Run) -> Result<(), AllocError>
    ensures { OnOk result (string_bytes text.new ≡ string_bytes text.old ++ fate_on worker (run_seen run.now)) }
{
    if run.worker == worker {
        return write_fate(text, run.attempt, run.is_open);
    }
    Ok(())
}

/// Writes what became of the attempts that ran on a worker.
fn write_fates_on(text: &mut String, worker: u32, runs: &[Run]) -> Result<(), AllocError>
    ensures { OnOk result (string_bytes text.new ≡ string_bytes text.old ++ flat_map (fate_on worker) (map run_seen runs.now)) }
{
    for run in runs {
        write_fate_on(text, worker, run)?;
    }
    Ok(())
}

fn write_fate_unless(
    text: &mut String,
    attempt: AttemptId,
    is_open: bool,
    told: bool,
) -> Result<(), AllocError>
    ensures { OnOk result (string_bytes text.new ≡ string_bytes text.old ++ fate_unless attempt is_open told) }
{
    if told {
        return Ok(());
    }
    write_fate(text, attempt, is_open)
}

fn write_fate_at(text: &mut String, node: u32, run: &Run) -> Result<(), AllocError>
    ensures { OnOk result (string_bytes text.new ≡ string_bytes text.old ++ fate_at node (run_seen run.now)) }
{
    if is_node(node, run.node) {
        let told = run.is_open && run.was_killed;
        return write_fate_unless(text, run.attempt, run.is_open, told);
    }
    Ok(())
}

/// Writes what became of the attempts that ran on a node.
fn write_fates_at(text: &mut String, node: u32, runs: &[Run]) -> Result<(), AllocError>
    ensures { OnOk result (string_bytes text.new ≡ string_bytes text.old ++ flat_map (fate_at node) (map run_seen runs.now)) }
{
    for run in runs {
        write_fate_at(text, node, run)?;
    }
    Ok(())
}

fn is_any_on(worker: u32, runs: &[Run]) -> bool
    ensures { result ≡ list_any (is_on worker) (map run_seen runs.now) }
{
    for run in runs {
        if run.worker == worker {
            return true;
        }
    }
    false
}

fn is_any_at(node: u32, runs: &[Run]) -> bool
    ensures { result ≡ list_any (is_at node) (map run_seen runs.now) }
{
    for run in runs {
        if is_node(node, run.node) {
            return true;
        }
    }
    false
}

/// Whether the worker owns the object, or ran its task.
#[tactic(auto, unfolding(crate::specs::Events::concerns))]
fn concerns(subject: &Subject, worker: u32) -> bool
    ensures { result ≡ concerns (seen_of subject.now) worker }
{
    if subject.object.owner.0 == worker {
        return true;
    }
    is_any_on(worker, &subject.runs)
}

/// Whether such a worker is on the node.
#[tactic(auto, unfolding(crate::specs::Events::concerns_node))]
fn concerns_node(subject: &Subject, node: u32) -> bool
    ensures { result ≡ concerns_node (seen_of subject.now) node }
{
    if is_node(node, subject.home) {
        return true;
    }
    is_any_at(node, &subject.runs)
}

/// Whether it is the object, or another result of its task, with which the object is made again.
#[tactic(auto, unfolding(crate::specs::Events::is_of_task))]
fn is_of_task(subject: &Subject, object: ObjectId) -> bool
    ensures { result ≡ is_of_task (seen_of subject.now) object }
{
    if object.is(subject.object) {
        return true;
    }
    is_among(object, &subject.results)
}

#[tactic(auto, unfolding(crate::specs::Events::dead_text))]
fn write_dead(text: &mut String, object: ObjectId, worker: WorkerId) -> Result<(), AllocError>
    ensures { OnOk result (string_bytes text.new ≡ string_bytes text.old ++ dead_text object worker) }
{
    if object.owner.0 == worker.0 {
        return write!(text, "{worker}, the owner of {object}, died");
    }
    write!(text, "{worker} died")
}

fn write_kill(
    text: &mut String,
    subject: &Subject,
    moment: &Moment,
    worker: WorkerId,
) -> Result<(), AllocError>
    ensures { OnOk result (string_bytes text.new ≡ string_bytes text.old ++ kill_text (seen_of subject.now) (moment_of moment.now) worker) }
{
    write_dead(text, subject.object, worker)?;
    write_when(text, moment)?;
    write_fates_on(text, worker.0, &subject.runs)?;
    text.push_str(".\n")
}

#[tactic(auto, unfolding(crate::specs::Events::owner_too))]
fn write_owner_too(text: &mut String, object: ObjectId) -> Result<(), AllocError>
    ensures { OnOk result (string_bytes text.new ≡ string_bytes text.old ++ owner_too object) }
{
    text.push_str(", and with it ")?;
    write_owner_of(text, object)?;
    write!(text, ", the owner of {object}")
}

#[tactic(auto, unfolding(crate::specs::Events::owner_note))]
fn write_owner(text: &mut String, object: ObjectId, dies: bool) -> Result<(), AllocError>
    ensures { OnOk result (string_bytes text.new ≡ string_bytes text.old ++ owner_note object dies) }
{
    if dies {
        return write_owner_too(text, object);
    }
    Ok(())
}

/// Writes that the node died, as `n2 died`. An error is want of memory, and then nothing is left of the text.
#[tactic(auto, unfolding(crate::specs::Events::dead_node_text))]
pub fn write_dead_node(text: &mut String, node: NodeId) -> Result<(), AllocError>
    ensures done { OnOk result (string_bytes text.new ≡ string_bytes text.old ++ dead_node_text node) }
    ensures err { OnErr result (string_bytes text.new ≡ []) }
{
    or_no_text(write!(text, "{node} died"), text)
}

fn write_node_kill(
    text: &mut String,
    subject: &Subject,
    moment: &Moment,
    node: NodeId,
) -> Result<(), AllocError>
    ensures { OnOk result (string_bytes text.new ≡ string_bytes text.old ++ node_kill_text (seen_of subject.now) (moment_of moment.now) node) }
{
    write_dead_node(text, node)?;
    write_when(text, moment)?;
    write_owner(text, subject.object, is_node(node.0, subject.home))?;
    write_fates_at(text, node.0, &subject.runs)?;
    text.push_str(".\n")
}

#[tactic(auto, unfolding(crate::specs::Events::learned_text))]
fn write_learned(text: &mut String, worker: WorkerId) -> Result<(), AllocError>
    ensures { OnOk result (string_bytes text.new ≡ string_bytes text.old ++ learned_text worker) }
{
    write!(text, "{worker} learned")
}

#[tactic(auto, unfolding(crate::specs::Events::worker_note))]
fn write_dead_worker_note(text: &mut String, dead: WorkerId) -> Result<(), AllocError>
    ensures { OnOk result (string_bytes text.new ≡ string_bytes text.old ++ worker_note dead) }
{
    write!(text, " that {dead} was dead.\n")
}

/// Writes that the worker learned of the other's death. An error is want of memory, and then nothing is left of the text.
pub fn write_notice(
    text: &mut String,
    moment: &Moment,
    worker: WorkerId,
    dead: WorkerId,
) -> Result<(), AllocError>
    ensures done { OnOk result (string_bytes text.new ≡ string_bytes text.old ++ notice_text (moment_of moment.now) worker dead) }
    ensures err { OnErr result (string_bytes text.new ≡ []) }
{
    or_no_text(write_learned(text, worker), text)?;
    write_when(text, moment)?;
    or_no_text(write_dead_worker_note(text, dead), text)
}

#[tactic(auto, unfolding(crate::specs::Events::node_note))]
fn write_dead_node_note(text: &mut String, dead: NodeId) -> Result<(), AllocError>
    ensures { OnOk result (string_bytes text.new ≡ string_bytes text.old ++ node_note dead) }
{
    write!(text, " that {dead} was dead.\n")
}

/// Writes that the worker learned of the node's death. An error is want of memory, and then nothing is left of the text.
pub fn write_node_notice(
    text: &mut String,
    moment: &Moment,
    worker: WorkerId,
    dead: NodeId,
) -> Result<(), AllocError>
    ensures done { OnOk result (string_bytes text.new ≡ string_bytes text.old ++ node_notice_text (moment_of moment.now) worker dead) }
    ensures err { OnErr result (string_bytes text.new ≡ []) }
{
    or_no_text(write_learned(text, worker), text)?;
    write_when(text, moment)?;
    or_no_text(write_dead_node_note(text, dead), text)
}

#[tactic(auto, unfolding(crate::specs::Events::copies_head))]
fn write_copies_head(
    text: &mut String,
    node: NodeId,
    did: &str,
    object: ObjectId,
) -> Result<(), AllocError>
    ensures { OnOk result (string_bytes text.new ≡ string_bytes text.old ++ copies_head node did.now object) }
{
    write!(text, "{node}{did}{object}")
}

/// Writes what became of the object's copies at the node; `did` is ` lost its copies of `, or another such. An error is want of memory, and then
/// nothing is left of the text.
pub fn write_copies(
    text: &mut String,
    moment: &Moment,
    node: NodeId,
    did: &str,
    object: ObjectId,
) -> Result<(), AllocError>
    ensures done { OnOk result (string_bytes text.new ≡ string_bytes text.old ++ copies_text (moment_of moment.now) node did.now object) }
    ensures err { OnErr result (string_bytes text.new ≡ []) }
{
    or_no_text(write_copies_head(text, node, did, object), text)?;
    write_when(text, moment)?;
    or_no_text(text.push_str(".\n"), text)
}

fn write_loss(
    text: &mut String,
    subject: &Subject,
    moment: &Moment,
    node: NodeId,
    object: ObjectId,
) -> Result<(), AllocError>
    ensures { OnOk result (string_bytes text.new ≡ string_bytes text.old
        ++ (if is_of_task (seen_of subject.now) object then copies_text (moment_of moment.now) node (codes " lost its copies of ") object else [])) }
{
    if is_of_task(subject, object) {
        return write_copies(text, moment, node, " lost its copies of ", object);
    }
    Ok(())
}

fn write_eviction(
    text: &mut String,
    subject: &Subject,
    moment: &Moment,
    node: NodeId,
    object: ObjectId,
) -> Result<(), AllocError>
    ensures { OnOk result (string_bytes text.new ≡ string_bytes text.old
        ++ (if same_id object subject.now.object
        then copies_text (moment_of moment.now) node (codes " dropped its secondary copies of ") object else [])) }
{
    if object.is(subject.object) {
        return write_copies(
            text,
            moment,
            node,
            " dropped its secondary copies of ",
            object,
        );
    }
    Ok(())
}

/// Writes what an event that was taken says of the object.
pub fn write_event_sentence(
    text: &mut String,
    subject: &Subject,
    moment: &Moment,
    event: &Event,
) -> Result<(), AllocError>
    ensures { OnOk result
        (string_bytes text.new ≡ string_bytes text.old ++ event_sentence (seen_of subject.now) (moment_of moment.now) event.now) }
{
    let owner = subject.object.owner.0;
    match event {
        Event::Kill(worker) => {
            if concerns(subject, worker.0) {
                return write_kill(text, subject, moment, *worker);
            }
            Ok(())
        }
        Event::KillNode(node) => {
            if concerns_node(subject, node.0) {
                return write_node_kill(text, subject, moment, *node);
            }
            Ok(())
        }
        Event::Notice { worker, dead } => {
            if (owner == worker.0 || owner == dead.0) && concerns(subject, dead.0) {
                return write_notice(text, moment, *worker, *dead);
            }
            Ok(())
        }
        Event::NoticeNode { worker, dead } => {
            if (owner == worker.0 || is_node(dead.0, subject.home))
                && concerns_node(subject, dead.0)
            {
                return write_node_notice(text, moment, *worker, *dead);
            }
            Ok(())
        }
        Event::Lose { node, object } => write_loss(text, subject, moment, *node, *object),
        Event::Evict { node, object } => write_eviction(text, subject, moment, *node, *object),
        _ => Ok(()),
    }
}
