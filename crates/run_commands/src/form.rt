// What is written of a run.

ghost use Rattle.std.specs.Prelude.{◌≡◌, ◌++◌, IfOk, string_bytes};
ghost use Rattle.books.specs.Lines.{book_lines};
ghost use Rattle.report_text.specs.Report.{report_text};
ghost use Rattle.fault_runs.specs.of_protocol_board.Cores.{IsSoundLog};
ghost use Rattle.run_commands.specs.Reports.{IsReportIn, account_of};
ghost use Rattle.state_text.specs.Text.{event_count, state_text};
ghost use Rattle.summary_text.specs.Text.{summary_text};

use books::book_lines;
use endpoint_text::{node_text, worker_text};
use fault_runs::Board;
use ids::{NodeId, ObjectId, WorkerId};
use limit_text::limit_text;
use lineage_text::lineage_text;
use log_entries::Entry;
use log_text::log_text;
use log_words::Contents;
use main_text::main_text;
use message_text::log_with_messages;
use protocol_data::{ClusterState, Envelope};
use report_json::report_json;
use report_text::report_text;
use segment::ScriptName;
use sequence::Seq;
use state_text::{event_count, state_text};
use std::alloc::{AllocError, Global};
use summary_text::summary_text;
use timeline::timeline_json;
use why_text::why_text;

/// What is written of a run. Those behind the third are of docs/reading-a-log.md and docs/state.md, and the limit of docs/refusals.md; with `Contents::Cut` the
/// long lists of those that have any are cut.
#[derive(Clone, Copy, PartialEq, Eq, Debug)]
pub enum Form {
    /// Its report, in lines.
    Text,
    /// Its report, as one line of JSON.
    Json,
    /// Its report, in lines, and behind it the books of its seats (docs/event-files.md, "Format 2").
    TextWithBooks,
    /// What happened: a line for each entry of its log.
    Log(Contents),
    /// The same, and below each event the messages that it sent.
    LogWithMessages(Contents),
    /// Why the object is as it is, in sentences.
    Why(Contents, ObjectId),
    /// Why main ended as it did, or for what it waits, in sentences.
    WhyMain(Contents),
    /// Its timeline, as Chrome's trace events.
    Timeline(Contents),
    /// What its objects are made of, as a graph for Graphviz.
    Lineage(Contents),
    /// Its report, in lines, and behind it what it came to (docs/state.md, "A summary").
    TextWithSummary,
    /// What is alive in it (docs/state.md).
    State,
    /// Why the worker is as it is, in sentences.
    WhyWorker(Contents, WorkerId),
    /// Why the node is as it is, in sentences.
    WhyNode(Contents, NodeId),
    /// Which limit it met, and in which event, or which event was the last.
    Limit,
}

/// The report, and behind it the books of the seats.
fn report_with_books(alloc: Global, log: &[Entry]) -> Result<String, AllocError>
    ensures { IfOk result (λ text. string_bytes text ≡ report_text log.now ++ book_lines log.now) }
{
    let mut text = report_text(alloc, log)?;
    let books = book_lines(alloc, log)?;
    text.push_str(books.as_str())?;
    Ok(text)
}

/// The report, and behind it what the run came to.
fn report_with_summary(
    alloc: Global,
    log: &[Entry],
    messages: &[Envelope],
) -> Result<String, AllocError>
    ensures { IfOk result (λ text. string_bytes text ≡ report_text log.now ++ summary_text log.now messages.now) }
{
    let mut text = report_text(alloc, log)?;
    let summary = summary_text(alloc, log, messages)?;
    text.push_str(summary.as_str())?;
    Ok(text)
}

/// What is alive in the run as it is.
fn state_now(alloc: Global, log: &[Entry], whole: &ClusterState) -> Result<String, AllocError>
    ensures { IfOk result (λ text. string_bytes text ≡ state_text log.now whole.now (event_count log.now)) }
{
    state_text(alloc, log, whole, event_count(log))
}

/// What is written of a run with this log, these messages and these tables.
fn report_of(
    alloc: Global,
    log: &[Entry],
    messages: &[Envelope],
    whole: &ClusterState,
    sent: &[usize],
    lines: &[usize],
    form: Form,
) -> Result<String, AllocError>
    ensures { IfOk result (λ text. IsReportIn form
        (record { log = log.now; messages = messages.now; whole = whole.now; sent = sent.now; lines = lines.now }) (string_bytes text)) }
{
    match form {
        Form::Text => report_text(alloc, log),
        Form::Json => report_json(alloc, log),
        Form::TextWithBooks => report_with_books(alloc, log),
        Form::Log(contents) => log_text(alloc, contents, log),
        Form::LogWithMessages(contents) => log_with_messages(alloc, contents, log, messages, sent),
        Form::Why(contents, object) => why_text(alloc, contents, log, lines, object),
        Form::WhyMain(contents) => main_text(alloc, contents, log, lines, whole),
        Form::Timeline(contents) => timeline_json(alloc, contents, log, messages, sent),
        Form::Lineage(contents) => lineage_text(alloc, contents, log),
        Form::TextWithSummary => report_with_summary(alloc, log, messages),
        Form::State => state_now(alloc, log, whole),
        Form::WhyWorker(contents, worker) => {
            worker_text(alloc, contents, log, lines, whole, worker)
        }
        Form::WhyNode(contents, node) => node_text(alloc, contents, log, lines, whole, node),
        Form::Limit => limit_text(alloc, log, lines),
    }
}

/// What is written of a run, in a form, where `sent` is how many messages had been sent behind each event, and `lines` are the lines of the
/// event file from which the events came, as far as they came from one.
pub fn report<S: ScriptName>(
    alloc: Global,
    board: &Board<S>,
    sent: &Seq<usize>,
    lines: &Seq<usize>,
    form: Form,
) -> Result<String, AllocError>
    ensures text { IfOk result (λ text. IsReportIn form (account_of board.now sent.now lines.now) (string_bytes text)) }
    ensures meant { IsSoundLog S.script board.now }
{
    let log = board.log();
    let messages = board.messages().as_slice();
    let whole = board.whole();
    report_of(
        alloc,
        log,
        messages,
        whole,
        sent.as_slice(),
        lines.as_slice(),
        form,
    )
}
