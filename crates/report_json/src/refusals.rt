// The refused events as JSON: of each the refusal's number and the event.

ghost use Rattle.std.specs.Prelude.{◌≡◌, ◌++◌, IfOk, OnOk, None, map, string_bytes};
ghost use Rattle.serde_json.specs.Data.{array};
ghost use Rattle.serde_json.specs.View.{view, items_of};
ghost use Rattle.log_entries.specs.Refusals.{code_of};
ghost use Rattle.report_text.specs.of_report_lines.Texts.{event_text};
ghost use Rattle.report_json.specs.Refusals.{refusal_data, refused_in, refused_data};

use crate::value::array_of;
use log_entries::{Entry, Event, Refusal};
use report_text::last_event;
use serde_json::{Value, json};
use std::alloc::{AllocError, Global};

fn event_name(alloc: Global, event: &Event) -> Result<String, AllocError>
    ensures { IfOk result (λ s. string_bytes s ≡ event_text event.now) }
{
    format!(in alloc; "{event}")
}

fn refusal_json(alloc: Global, refusal: Refusal, last: &Option<Event>) -> Result<Value, AllocError>
    ensures { IfOk result (λ v. view v ≡ refusal_data (code_of refusal) last.now) }
{
    let code = refusal.number();
    let Some(event) = last else {
        return json!(in alloc; {"code": code});
    };
    let event = event_name(alloc, event)?;
    json!(in alloc; {"code": code, "event": event})
}

/// Adds the entry if it is a refusal, of the last event before it.
fn add_refusal(
    alloc: Global,
    all: &mut Vec<Value>,
    last: &Option<Event>,
    entry: &Entry,
) -> Result<(), AllocError>
    ensures { OnOk result (map view all.new.items ≡ map view all.old.items ++ refused_in last.now entry.now) }
{
    let Entry::Refused(refusal) = entry else {
        return Ok(());
    };
    all.push(refusal_json(alloc, *refusal, last)?)?;
    Ok(())
}

/// The refused events.
pub fn refusals_json(alloc: Global, log: &[Entry]) -> Result<Value, AllocError>
    ensures { IfOk result (λ v. view v ≡ array (items_of (refused_data None log.now))) }
{
    let mut last = None;
    let mut all = Vec::new(alloc);
    for entry in log {
        add_refusal(alloc, &mut all, &last, entry)?;
        last = last_event(last, entry);
    }
    Ok(array_of(all))
}
