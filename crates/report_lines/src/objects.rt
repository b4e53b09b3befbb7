// The report's sections of objects: those with a fault, and those released.

ghost use Rattle.std.specs.Prelude.{◌≡◌, ◌++◌, OnOk, string_bytes};
ghost use Rattle.report_lines.specs.Objects.{resolve_in, release_in};

use crate::faults::write_fault;
use crate::numbers::write_number;
use log_entries::Entry;
use std::alloc::AllocError;

/// Writes `resolved o1.2 PutLost o1.1` where the entry is a resolve.
pub fn write_resolve(text: &mut String, entry: &Entry) -> Result<(), AllocError>
    ensures { OnOk result (string_bytes text.new ≡ string_bytes text.old ++ resolve_in entry.now) }
{
    let Entry::Resolved { object, fault } = entry else {
        return Ok(());
    };
    write!(text, "resolved {object} ")?;
    write_fault(text, *fault)?;
    text.push_str("\n")
}

/// Writes `released o1.2` where the entry is a release.
pub fn write_release(text: &mut String, entry: &Entry) -> Result<(), AllocError>
    ensures { OnOk result (string_bytes text.new ≡ string_bytes text.old ++ release_in entry.now) }
{
    let Entry::Released(object) = entry else {
        return Ok(());
    };
    text.push_str("released o")?;
    write_number(text, u64::from(object.owner.0))?;
    text.push('.')?;
    write_number(text, object.serial)?;
    text.push('\n')
}
