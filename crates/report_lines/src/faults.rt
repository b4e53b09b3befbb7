// How a fault is written in a report: its kind's word and its object.

ghost use Rattle.std.specs.Prelude.{◌≡◌, ◌++◌, OnOk, string_bytes};
ghost use Rattle.report_lines.specs.Texts.{fault_text, kind_name};

use std::alloc::AllocError;
use values::{Fault, FaultKind};

/// The word for a kind of fault.
pub fn kind_name(kind: FaultKind) -> &'static str
    ensures { result.now ≡ kind_name kind }
{
    match kind {
        FaultKind::OwnerDied => "OwnerDied",
        FaultKind::PutLost => "PutLost",
        FaultKind::RetriesUsed => "RetriesUsed",
    }
}

/// Writes a fault as `PutLost o1.1`: its kind, and the object in which it began.
pub fn write_fault(text: &mut String, fault: Fault) -> Result<(), AllocError>
    ensures { OnOk result (string_bytes text.new ≡ string_bytes text.old ++ fault_text fault) }
{
    let kind = kind_name(fault.kind);
    let object = fault.object;
    write!(text, "{kind} {object}")
}
