// How main ended as JSON: a value, a trap, a fault, or open.

ghost use Rattle.std.specs.Prelude.{◌≡◌, IfOk};
ghost use Rattle.serde_json.specs.View.{view};
ghost use Rattle.values.specs.Values.{content_of};
ghost use Rattle.report_text.specs.of_report_lines.Main.{main_end, main_fault};
ghost use Rattle.report_json.specs.Main.{end_data, unended_data, main_data};

use crate::value::{id_json, value_json};
use log_entries::Entry;
use report::trap_name;
use report_text::kind_name;
use report_text::main_end::{main_end, main_fault};
use serde_json::{Value, json};
use std::alloc::{AllocError, Global};
use values::{Content, Fault};

fn end_json(alloc: Global, end: &Content) -> Result<Value, AllocError>
    ensures { IfOk result (λ v. view v ≡ end_data (content_of end.now)) }
{
    match end {
        Content::Value(value) => {
            let value = value_json(alloc, value)?;
            json!(in alloc; {"end": "value", "value": value})
        }
        Content::Trap(trap) => {
            let trap = trap_name(*trap);
            json!(in alloc; {"end": "trap", "trap": trap})
        }
    }
}

fn unended_json(alloc: Global, fault: Option<Fault>) -> Result<Value, AllocError>
    ensures { IfOk result (λ v. view v ≡ unended_data fault) }
{
    let Some(fault) = fault else {
        return json!(in alloc; {"end": "open"});
    };
    let kind = kind_name(fault.kind);
    let named = id_json(alloc, fault.object)?;
    json!(in alloc; {"end": "fault", "fault": kind, "named": named})
}

/// How main ended, or that it has a fault or is open.
pub fn main_json(alloc: Global, log: &[Entry]) -> Result<Value, AllocError>
    ensures { IfOk result (λ v. view v ≡ main_data (main_end log.now) (main_fault log.now)) }
{
    match main_end(log) {
        Some(content) => end_json(alloc, &content.inner),
        None => unended_json(alloc, main_fault(log)),
    }
}
