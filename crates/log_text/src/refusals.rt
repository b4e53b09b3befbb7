// The line of a refusal: its number, and the cause in words.

ghost use Rattle.std.specs.Prelude.{◌≡◌, ◌++◌, OnOk, string_bytes};
ghost use Rattle.log_text.specs.Refusals.{reason_of, refusal_text};

use log_entries::Refusal;
use raysim_explain::RefusalCause;
use std::alloc::AllocError;

/// The reason that explains a refusal.
fn reason_of(refusal: Refusal) -> RefusalCause
    ensures { result ≡ reason_of refusal }
{
    match refusal {
        Refusal::Pinned => RefusalCause::Pinned,
        Refusal::NoCopy => RefusalCause::NoCopy,
        Refusal::NoWorker => RefusalCause::NoWorker,
        Refusal::NotReady => RefusalCause::NotReady,
        Refusal::NoJob => RefusalCause::NoJob,
        Refusal::Stale => RefusalCause::Stale,
        Refusal::NoMessage => RefusalCause::NoMessage,
        Refusal::NotDead => RefusalCause::NotDead,
        Refusal::NoNode => RefusalCause::NoNode,
        Refusal::Limit => RefusalCause::Limit,
        Refusal::Halted => RefusalCause::Halted,
        Refusal::NoMemory => RefusalCause::NoMemory,
    }
}

/// Writes a refusal with its cause, such as `refused 33: A commit of a job whose worker is dead.`
pub fn write_refusal(text: &mut String, refusal: Refusal) -> Result<(), AllocError>
    ensures { OnOk result (string_bytes text.new ≡ string_bytes text.old ++ refusal_text refusal) }
{
    let code = refusal.number();
    write!(text, "refused {code}: ")?;
    text.push_str(reason_of(refusal).cause())
}
