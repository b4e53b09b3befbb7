// The report's last section: a line for each event that was refused.

ghost use Rattle.std.specs.Prelude.{◌≡◌, ◌++◌, [], OnErr, OnOk, None, Option, false, string_bytes, true};
ghost use Rattle.event_log.specs.Entries.{Event};
ghost use Rattle.report_lines.specs.Refusals.{last_in, refused_in, refused_lines};

use log_entries::{Entry, Event};
use report::or_no_text;
use std::alloc::AllocError;

/// The last event of a log, after one more entry.
pub fn last_event(last: Option<Event>, entry: &Entry) -> Option<Event>
    ensures { result ≡ last_in last entry.now }
{
    match entry {
        Entry::In { event, .. } => Some(*event),
        _ => last,
    }
}

/// Writes `refused 30 kill 2` where the entry is a refusal, of the last event before it.
fn write_refusal(text: &mut String, last: &Option<Event>, entry: &Entry) -> Result<(), AllocError>
    ensures { OnOk result (string_bytes text.new ≡ string_bytes text.old ++ refused_in last.now entry.now) }
{
    let Entry::Refused(refusal) = entry else {
        return Ok(());
    };
    let code = refusal.number();
    match last {
        Some(event) => writeln!(text, "refused {code} {event}"),
        None => writeln!(text, "refused {code}"),
    }
}

/// Whether the entry is a refusal.
fn is_refusal(entry: &Entry) -> bool
    ensures { result ≡ false → (last : Option Event) → refused_in last entry.now ≡ [] }
{
    matches!(entry, Entry::Refused(_))
}

/// Whether no event of the log was refused, as is so of most logs.
fn none_refused(log: &[Entry]) -> bool
    ensures { result ≡ true → refused_lines None log.now ≡ [] }
{
    for entry in log {
        if is_refusal(entry) {
            return false;
        }
    }
    true
}

/// Writes the refusals' lines at the text's end.
fn add_refusals(text: &mut String, log: &[Entry]) -> Result<(), AllocError>
    ensures { OnOk result (string_bytes text.new ≡ string_bytes text.old ++ refused_lines None log.now) }
{
    if none_refused(log) {
        return Ok(());
    }
    let mut last = None;
    for entry in log {
        write_refusal(text, &last, entry)?;
        last = last_event(last, entry);
    }
    Ok(())
}

/// Writes a line for each refusal of the log. An error is want of memory, and then nothing is left of the text.
pub fn write_refusals(text: &mut String, log: &[Entry]) -> Result<(), AllocError>
    ensures done { OnOk result (string_bytes text.new ≡ string_bytes text.old ++ refused_lines None log.now) }
    ensures err { OnErr result (string_bytes text.new ≡ []) }
{
    or_no_text(add_refusals(text, log), text)
}
