// Prints, and what became of objects, as JSON.

ghost use Rattle.std.specs.Prelude.{◌≡◌, ◌++◌, IfOk, OnOk, map};
ghost use Rattle.serde_json.specs.Data.{array};
ghost use Rattle.serde_json.specs.View.{view, items_of};
ghost use Rattle.std.specs.List.{flat_map};
ghost use Rattle.report_json.specs.Objects.{print_in, release_in, resolve_data, resolve_in};

use crate::value::{array_of, id_json, value_json};
use ids::ObjectId;
use log_entries::Entry;
use report_text::kind_name;
use serde_json::{Value, json};
use std::alloc::{AllocError, Global};
use values::Fault;

fn add_print(alloc: Global, all: &mut Vec<Value>, entry: &Entry) -> Result<(), AllocError>
    ensures { OnOk result (map view all.new.items ≡ map view all.old.items ++ print_in entry.now) }
{
    let Entry::Printed(value) = entry else {
        return Ok(());
    };
    all.push(value_json(alloc, &value.inner)?)?;
    Ok(())
}

/// An array of the values that main printed, in order.
pub fn prints_json(alloc: Global, log: &[Entry]) -> Result<Value, AllocError>
    ensures { IfOk result (λ v. view v ≡ array (items_of (flat_map print_in log.now))) }
{
    let mut all = Vec::new(alloc);
    for entry in log {
        add_print(alloc, &mut all, entry)?;
    }
    Ok(array_of(all))
}

fn add_release(alloc: Global, all: &mut Vec<Value>, entry: &Entry) -> Result<(), AllocError>
    ensures { OnOk result (map view all.new.items ≡ map view all.old.items ++ release_in entry.now) }
{
    let Entry::Released(object) = entry else {
        return Ok(());
    };
    all.push(id_json(alloc, *object)?)?;
    Ok(())
}

/// The objects that were released.
pub fn releases_json(alloc: Global, log: &[Entry]) -> Result<Value, AllocError>
    ensures { IfOk result (λ v. view v ≡ array (items_of (flat_map release_in log.now))) }
{
    let mut all = Vec::new(alloc);
    for entry in log {
        add_release(alloc, &mut all, entry)?;
    }
    Ok(array_of(all))
}

fn resolve_json(alloc: Global, object: ObjectId, fault: Fault) -> Result<Value, AllocError>
    ensures { IfOk result (λ v. view v ≡ resolve_data object fault) }
{
    let kind = kind_name(fault.kind);
    let named = id_json(alloc, fault.object)?;
    let object = id_json(alloc, object)?;
    json!(in alloc; {"fault": kind, "named": named, "object": object})
}

fn add_resolve(alloc: Global, all: &mut Vec<Value>, entry: &Entry) -> Result<(), AllocError>
    ensures { OnOk result (map view all.new.items ≡ map view all.old.items ++ resolve_in entry.now) }
{
    let Entry::Resolved { object, fault } = entry else {
        return Ok(());
    };
    all.push(resolve_json(alloc, *object, *fault)?)?;
    Ok(())
}

/// The objects that have a fault.
pub fn resolves_json(alloc: Global, log: &[Entry]) -> Result<Value, AllocError>
    ensures { IfOk result (λ v. view v ≡ array (items_of (flat_map resolve_in log.now))) }
{
    let mut all = Vec::new(alloc);
    for entry in log {
        add_resolve(alloc, &mut all, entry)?;
    }
    Ok(array_of(all))
}
