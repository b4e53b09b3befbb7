// What a report notes of a log in its first way over it, in which it writes the prints.

ghost use Rattle.std.specs.Prelude.{◌≡◌, ◌++◌, ◌||◌, [], IfOk, None, OnErr, OnOk, Option, false, string_bytes};
ghost use Rattle.std.specs.List.{flat_map};
ghost use Rattle.event_log.specs.Entries.{Event};
ghost use Rattle.ids.specs.Attempts.{Attempt};
ghost use Rattle.event_log.specs.Words.{accepted_in, ended_in, faulted_in};
ghost use Rattle.report_lines.specs.Attempts.{any, AreStatesOf};
ghost use Rattle.report_lines.specs.Main.{print_in};
ghost use Rattle.report_lines.specs.Refusals.{refused_in, refused_lines};
ghost use Rattle.report_lines.specs.Sets.{has};

use crate::attempts::AttemptStates;
use crate::prints::write_print;
use log_entries::Entry;
use report::or_no_text;
use std::alloc::{AllocError, Global};

/// What is known of a log behind the first way over it.
#[derive(Drop)]
pub struct Noted {
    /// The states of the log's attempts.
    pub states: AttemptStates,
    /// Whether an event was refused, as in few logs.
    pub refused: bool,
}

/// Writes the entry's line, if it is a print, and notes what else it says.
fn note_entry(
    text: &mut String,
    states: &mut AttemptStates,
    refused: &mut bool,
    entry: &Entry,
) -> Result<(), AllocError>
    ensures printed { OnOk result (string_bytes text.new ≡ string_bytes text.old ++ print_in entry.now) }
    ensures accepted { OnOk result ((a : Attempt) → has states.new.accepted a ≡ (has states.old.accepted a || any (accepted_in a entry.now))) }
    ensures ended { OnOk result ((a : Attempt) → has states.new.ended a ≡ (has states.old.ended a || any (ended_in a entry.now))) }
    ensures faulted { OnOk result ((a : Attempt) → has states.new.faulted a ≡ (has states.old.faulted a || any (faulted_in a entry.now))) }
    ensures before { OnOk result (refused.new ≡ false → refused.old ≡ false) }
    ensures refused { OnOk result (refused.new ≡ false → (last : Option Event) → refused_in last entry.now ≡ []) }
{
    match entry {
        Entry::Printed(_) => write_print(text, entry),
        Entry::Refused(_) => {
            *refused = true;
            Ok(())
        }
        _ => states.note(entry),
    }
}

/// Writes the prints' lines at the text's end, and notes what the further sections need.
fn add_prints_and_note(alloc: Global, text: &mut String, log: &[Entry]) -> Result<Noted, AllocError>
    ensures printed { OnOk result (string_bytes text.new ≡ string_bytes text.old ++ flat_map print_in log.now) }
    ensures states { IfOk result (λ noted. AreStatesOf noted.states log.now) }
    ensures refused { IfOk result (λ noted. noted.refused ≡ false → refused_lines None log.now ≡ []) }
{
    let mut states = AttemptStates::new(alloc);
    let mut refused = false;
    for entry in log {
        note_entry(text, &mut states, &mut refused, entry)?;
    }
    Ok(Noted { states, refused })
}

/// Writes a line for each print of the log, and notes what the further sections need. An error is want of memory, and then nothing is left of the
/// text.
pub fn write_prints_and_note(
    alloc: Global,
    text: &mut String,
    log: &[Entry],
) -> Result<Noted, AllocError>
    ensures printed { OnOk result (string_bytes text.new ≡ string_bytes text.old ++ flat_map print_in log.now) }
    ensures states { IfOk result (λ noted. AreStatesOf noted.states log.now) }
    ensures refused { IfOk result (λ noted. noted.refused ≡ false → refused_lines None log.now ≡ []) }
    ensures err { OnErr result (string_bytes text.new ≡ []) }
{
    or_no_text(add_prints_and_note(alloc, text, log), text)
}
