// The whole report as one line of JSON.

ghost use Rattle.std.specs.Prelude.{◌≡◌, ◌++◌, IfOk, OnOk, codes, string_bytes};
ghost use Rattle.serde_json.specs.View.{members_view, view};
ghost use Rattle.serde_json.specs.Written.{compact_text};
ghost use Rattle.report_json.specs.Report.{report_data, with_sections};

use crate::attempts::attempts_json;
use crate::entries::{prints_json, releases_json, resolves_json};
use crate::main_end::main_json;
use crate::refusals::refusals_json;
use log_entries::Entry;
use serde_json::{Map, Value, put};
use std::alloc::{AllocError, Global};

/// Adds the sections of the report, by their keys.
fn add_sections(
    alloc: Global,
    sections: &mut Map<String, Value>,
    log: &[Entry],
) -> Result<(), AllocError>
    ensures { OnOk result (members_view sections.new.entries ≡ with_sections log.now (members_view sections.old.entries)) }
{
    put(sections, alloc, "attempts", attempts_json(alloc, log)?)?;
    put(sections, alloc, "main", main_json(alloc, log)?)?;
    put(sections, alloc, "prints", prints_json(alloc, log)?)?;
    put(sections, alloc, "refused", refusals_json(alloc, log)?)?;
    put(sections, alloc, "released", releases_json(alloc, log)?)?;
    put(sections, alloc, "resolved", resolves_json(alloc, log)?)
}

fn report_value(alloc: Global, log: &[Entry]) -> Result<Value, AllocError>
    ensures { IfOk result (λ v. view v ≡ report_data log.now) }
{
    let mut sections = Map::new(alloc);
    if let Err(failed) = add_sections(alloc, &mut sections, log) {
        drop(sections);
        return Err(failed);
    }
    Ok(Value::Object(sections))
}

fn compact(alloc: Global, log: &[Entry]) -> Result<String, AllocError>
    ensures { IfOk result (λ text. string_bytes text ≡ compact_text (report_data log.now)) }
{
    report_value(alloc, log)?.to_string(alloc)
}

/// The report of a log as JSON, on one line that ends with a line feed: what `report_text::report_text` says of the log, as one object
/// with no spaces and its keys in the order of their bytes. `attempts` has objects with `attempt`, `state` and `worker`; `main` has
/// `end`, which is `value`, `trap`, `fault` or `open`, and beside it the `value`, the `trap`, or `fault` and `named`; `prints` has
/// values; `refused` has objects with `code` and `event`, `released` ids, and `resolved` objects with `fault`, `named` and `object`.
/// Ids are strings, and lists arrays. It is made of any log, as `report_text` is.
pub fn report_json(alloc: Global, log: &[Entry]) -> Result<String, AllocError>
    ensures { IfOk result (λ text. string_bytes text ≡ compact_text (report_data log.now) ++ codes "\n") }
{
    let mut text = compact(alloc, log)?;
    text.push_str("\n")?;
    Ok(text)
}
