// What a page has of a run, as JSON.

ghost use Rattle.std.specs.Prelude.{◌≡◌, IfOk, string_bytes};
ghost use Rattle.serde_json.specs.View.{view};
ghost use Rattle.serde_json.specs.Written.{compact_text};
ghost use Rattle.page_text.specs.Data.{page_data, run_data};

use log_entries::Entry;
use log_words::Contents;
use message_text::log_with_messages;
use protocol_data::ClusterState;
use report_text::report_text;
use serde_json::{Value, json};
use state_text::{event_count, state_text};
use std::alloc::{AllocError, Global};

/// The texts of a run, with its script and the cluster on which it began.
fn run_value(
    alloc: Global,
    script: &str,
    nodes: u8,
    slots: u8,
    log: &str,
    report: &str,
    state: &str,
) -> Result<Value, AllocError>
    ensures { IfOk result (λ v. view v ≡ run_data script.now nodes slots log.now report.now state.now) }
{
    json!(in alloc; {
        "cluster": {"nodes": nodes, "slots": slots},
        "log": log,
        "report": report,
        "script": script,
        "state": state
    })
}

fn compact(
    alloc: Global,
    script: &str,
    nodes: u8,
    slots: u8,
    log: &str,
    report: &str,
    state: &str,
) -> Result<String, AllocError>
    ensures { IfOk result (λ text. string_bytes text ≡ compact_text (run_data script.now nodes slots log.now report.now state.now)) }
{
    run_value(alloc, script, nodes, slots, log, report, state)?.to_string(alloc)
}

/// The JSON of a run with this log, these tables, and so many messages sent behind each event.
pub fn data_text(
    alloc: Global,
    contents: Contents,
    script: &str,
    nodes: u8,
    slots: u8,
    log: &[Entry],
    sent: &[usize],
    whole: &ClusterState,
) -> Result<String, AllocError>
    ensures { IfOk result (λ text. string_bytes text ≡ compact_text (page_data contents script.now nodes slots log.now sent.now whole.now)) }
{
    let told = log_with_messages(alloc, contents, log, whole.network.as_slice(), sent)?;
    let report = report_text(alloc, log)?;
    let state = state_text(alloc, log, whole, event_count(log))?;
    compact(
        alloc,
        script,
        nodes,
        slots,
        told.as_str(),
        report.as_str(),
        state.as_str(),
    )
}
