// How each of the eighteen messages is written: its word, and what it carries.

ghost use Rattle.std.specs.Prelude.{◌≡◌, ◌++◌, OnOk, string_bytes};
ghost use Rattle.std.specs.List.{flat_map};
ghost use Rattle.message_text.specs.Messages.{at_text, carrying_text, closed_text, copy_text, finished_ack_text, finished_text, hold_text, kept_text};
ghost use Rattle.message_text.specs.Messages.{kind_text, message_text, other_result, place_text, push_text, reason_text, result_text, results_text};
ghost use Rattle.message_text.specs.Messages.{stop_text, unhold_text};

use crate::lists::{write_nodes, write_objects};
use held::{SharedBirth, SharedContent};
use ids::{AttemptId, NodeId, ObjectId};
use log_words::{Contents, write_birth, write_content};
use protocol_data::{EndedResult, Message, Reason, SmallList};
use report_text::kind_name;
use sequence::Seq;
use std::alloc::AllocError;

fn write_push(
    text: &mut String,
    contents: Contents,
    attempt: AttemptId,
    birth: &SharedBirth,
) -> Result<(), AllocError>
    ensures { OnOk result (string_bytes text.new ≡ string_bytes text.old ++ push_text contents attempt birth.now) }
{
    write!(text, "Push({attempt}, ")?;
    write_birth(text, contents, &birth.inner)?;
    text.push_str(")")
}

fn write_kept(
    text: &mut String,
    contents: Contents,
    kept: &Option<SharedContent>,
) -> Result<(), AllocError>
    ensures { OnOk result (string_bytes text.new ≡ string_bytes text.old ++ kept_text contents kept.now) }
{
    let Some(content) = kept else {
        return Ok(());
    };
    text.push_str(", ")?;
    write_content(text, contents, &content.inner)
}

fn write_result(
    text: &mut String,
    contents: Contents,
    ended: &EndedResult,
) -> Result<(), AllocError>
    ensures { OnOk result (string_bytes text.new ≡ string_bytes text.old ++ result_text contents ended.now) }
{
    write_objects(text, ended.ids.as_slice())?;
    write_kept(text, contents, &ended.kept)
}

/// Writes what is told of a result behind the first.
fn write_other_result(
    text: &mut String,
    contents: Contents,
    ended: &EndedResult,
) -> Result<(), AllocError>
    ensures { OnOk result (string_bytes text.new ≡ string_bytes text.old ++ other_result contents ended.now) }
{
    text.push_str("; ")?;
    write_result(text, contents, ended)
}

/// So of each of these.
fn write_other_results(
    text: &mut String,
    contents: Contents,
    results: &[EndedResult],
) -> Result<(), AllocError>
    ensures { OnOk result (string_bytes text.new ≡ string_bytes text.old ++ flat_map (other_result contents) results.now) }
{
    for ended in results {
        write_other_result(text, contents, ended)?;
    }
    Ok(())
}

fn write_results(
    text: &mut String,
    contents: Contents,
    results: &[EndedResult],
) -> Result<(), AllocError>
    ensures { OnOk result (string_bytes text.new ≡ string_bytes text.old ++ results_text contents results.now) }
{
    let [first, others @ ..] = results else {
        return Ok(());
    };
    write_result(text, contents, first)?;
    write_other_results(text, contents, others)
}

fn write_finished(
    text: &mut String,
    contents: Contents,
    attempt: AttemptId,
    node: NodeId,
    results: &SmallList<EndedResult>,
) -> Result<(), AllocError>
    ensures { OnOk result (string_bytes text.new ≡ string_bytes text.old ++ finished_text contents attempt node results.now) }
{
    let node = node.0;
    write!(text, "Finished({attempt}, n{node}, ")?;
    write_results(text, contents, results.as_slice())?;
    text.push_str(")")
}

fn write_at(
    text: &mut String,
    contents: Contents,
    object: ObjectId,
    number: u32,
    nodes: &Seq<NodeId>,
    kept: &Option<SharedContent>,
) -> Result<(), AllocError>
    ensures { OnOk result (string_bytes text.new ≡ string_bytes text.old ++ at_text contents object number nodes.now kept.now) }
{
    write!(text, "At({object}, {number}, ")?;
    write_nodes(text, nodes.as_slice())?;
    write_kept(text, contents, kept)?;
    text.push_str(")")
}

fn write_copy(
    text: &mut String,
    contents: Contents,
    object: ObjectId,
    number: u32,
    content: &SharedContent,
) -> Result<(), AllocError>
    ensures { OnOk result (string_bytes text.new ≡ string_bytes text.old ++ copy_text contents object number content.now) }
{
    write!(text, "Copy({object}, {number}, ")?;
    write_content(text, contents, &content.inner)?;
    text.push_str(")")
}

/// Writes a message that carries a task, objects, nodes or a content.
fn write_carrying(
    text: &mut String,
    contents: Contents,
    message: &Message,
) -> Result<(), AllocError>
    ensures { OnOk result (string_bytes text.new ≡ string_bytes text.old ++ carrying_text contents message.now) }
{
    match message {
        Message::Push(attempt, birth) => write_push(text, contents, *attempt, birth),
        Message::Finished(attempt, node, results) => {
            write_finished(text, contents, *attempt, *node, results)
        }
        Message::At(object, number, nodes, kept) => write_at(
            text, contents, *object, *number, nodes, kept,
        ),
        Message::CopyOf(object, number, content) => write_copy(
            text, contents, *object, *number, content,
        ),
        _ => Ok(()),
    }
}

/// Why one object holds another no more.
fn reason_name(reason: Reason) -> &'static str
    ensures { result.now ≡ reason_text reason }
{
    match reason {
        Reason::WasReleased => "Released",
        Reason::OwnerIsDead => "OwnerDead",
    }
}

fn write_unhold(
    text: &mut String,
    holder: ObjectId,
    object: ObjectId,
    reason: Reason,
) -> Result<(), AllocError>
    ensures { OnOk result (string_bytes text.new ≡ string_bytes text.old ++ unhold_text holder object reason) }
{
    let reason = reason_name(reason);
    write!(text, "Unhold({holder}, {object}, {reason})")
}

/// Writes what is said of who holds an object, and the others.
fn write_hold(text: &mut String, contents: Contents, message: &Message) -> Result<(), AllocError>
    ensures { OnOk result (string_bytes text.new ≡ string_bytes text.old ++ hold_text contents message.now) }
{
    match message {
        Message::Hold(holder, object) => {
            let holder = *holder;
            let object = *object;
            write!(text, "Hold({holder}, {object})")
        }
        Message::HoldAck(holder, object) => {
            let holder = *holder;
            let object = *object;
            write!(text, "HoldAck({holder}, {object})")
        }
        Message::Unhold(holder, object, reason) => write_unhold(text, *holder, *object, *reason),
        _ => write_carrying(text, contents, message),
    }
}

/// Writes what is said of where an object is, and the others.
fn write_place(text: &mut String, contents: Contents, message: &Message) -> Result<(), AllocError>
    ensures { OnOk result (string_bytes text.new ≡ string_bytes text.old ++ place_text contents message.now) }
{
    match message {
        Message::Where(object) => {
            let object = *object;
            write!(text, "Where({object})")
        }
        Message::Fetch(object, number) => {
            let object = *object;
            write!(text, "Fetch({object}, {number})")
        }
        Message::Missing(object, number, node) => {
            let object = *object;
            let node = node.0;
            write!(text, "Missing({object}, {number}, n{node})")
        }
        _ => write_hold(text, contents, message),
    }
}

fn write_closed(text: &mut String, attempt: AttemptId) -> Result<(), AllocError>
    ensures { OnOk result (string_bytes text.new ≡ string_bytes text.old ++ closed_text attempt) }
{
    write!(text, "{attempt})")
}

fn write_finished_ack(text: &mut String, attempt: AttemptId) -> Result<(), AllocError>
    ensures { OnOk result (string_bytes text.new ≡ string_bytes text.old ++ finished_ack_text attempt) }
{
    text.push_str("FinishedAck(")?;
    write_closed(text, attempt)
}

/// Writes what is said of how an attempt stopped, and the others.
fn write_stop(text: &mut String, contents: Contents, message: &Message) -> Result<(), AllocError>
    ensures { OnOk result (string_bytes text.new ≡ string_bytes text.old ++ stop_text contents message.now) }
{
    match message {
        Message::FinishedAck(attempt) => write_finished_ack(text, *attempt),
        Message::Back(attempt) => {
            let attempt = *attempt;
            write!(text, "Back({attempt})")
        }
        Message::Failed(attempt, fault) => {
            let attempt = *attempt;
            let fault = *fault;
            let kind = kind_name(fault.kind);
            let object = fault.object;
            write!(text, "Failed({attempt}, {kind} {object})")
        }
        Message::Gone(lost, fault) => {
            let lost = *lost;
            let fault = *fault;
            let kind = kind_name(fault.kind);
            let object = fault.object;
            write!(text, "Gone({lost}, {kind} {object})")
        }
        _ => write_place(text, contents, message),
    }
}

/// Writes a message, such as `Push(a1.1#0, remote(3) sq(7))`: its kind and what it says, as docs/protocol.md has them.
pub fn write_message(
    text: &mut String,
    contents: Contents,
    message: &Message,
) -> Result<(), AllocError>
    ensures { OnOk result (string_bytes text.new ≡ string_bytes text.old ++ message_text contents message.now) }
{
    match message {
        Message::Ask(attempt, ask) => {
            let attempt = *attempt;
            write!(text, "Ask({attempt}, {ask})")
        }
        Message::Give(attempt, ask, worker) => {
            let attempt = *attempt;
            let worker = worker.0;
            write!(text, "Give({attempt}, {ask}, w{worker})")
        }
        Message::Elsewhere(attempt, ask, node) => {
            let attempt = *attempt;
            let node = node.0;
            write!(text, "Elsewhere({attempt}, {ask}, n{node})")
        }
        Message::Wait(attempt, ask) => {
            let attempt = *attempt;
            write!(text, "Wait({attempt}, {ask})")
        }
        _ => write_stop(text, contents, message),
    }
}

/// The kind of a message, such as `Push`.
pub fn message_kind(message: &Message) -> &'static str
    ensures { result.now ≡ kind_text message.now }
{
    match message {
        Message::Ask(..) => "Ask",
        Message::Give(..) => "Give",
        Message::Elsewhere(..) => "Elsewhere",
        Message::Wait(..) => "Wait",
        Message::Back(..) => "Back",
        Message::Push(..) => "Push",
        Message::Finished(..) => "Finished",
        Message::FinishedAck(..) => "FinishedAck",
        Message::Failed(..) => "Failed",
        Message::Where(..) => "Where",
        Message::At(..) => "At",
        Message::Gone(..) => "Gone",
        Message::Fetch(..) => "Fetch",
        Message::CopyOf(..) => "Copy",
        Message::Missing(..) => "Missing",
        Message::Hold(..) => "Hold",
        Message::HoldAck(..) => "HoldAck",
        Message::Unhold(..) => "Unhold",
    }
}
