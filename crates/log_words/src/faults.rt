// Faults, written with what they mean.

ghost use Rattle.std.specs.Prelude.{◌≡◌, ◌++◌, [], OnErr, OnOk, string_bytes};
ghost use Rattle.log_words.specs.Faults.{kind_words, fault_words};

use report::or_no_text;
use report_text::kind_name;
use std::alloc::AllocError;
use values::{Fault, FaultKind};

/// What a kind of fault says of the object in which it began.
pub fn kind_words(kind: FaultKind) -> &'static str
    ensures { result.now ≡ kind_words kind }
{
    match kind {
        FaultKind::OwnerDied => "its owner died",
        FaultKind::PutLost => "it was put, and its copy was lost",
        FaultKind::RetriesUsed => "every run that it was allowed broke",
    }
}

/// Writes a fault, such as `PutLost o1.1 (it was put, and its copy was lost)`. An error is want of memory, and then nothing is left of the text.
pub fn write_fault(text: &mut String, fault: Fault) -> Result<(), AllocError>
    ensures done { OnOk result (string_bytes text.new ≡ string_bytes text.old ++ fault_words fault) }
    ensures err { OnErr result (string_bytes text.new ≡ []) }
{
    let kind = kind_name(fault.kind);
    let object = fault.object;
    let words = kind_words(fault.kind);
    or_no_text(write!(text, "{kind} {object} ({words})"), text)
}
