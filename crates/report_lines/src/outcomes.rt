// The report's sections of what became of attempts and objects, written in one way over the log.

ghost use Rattle.std.specs.Prelude.{◌≡◌, ◌++◌, [], List, OnErr, OnOk, string_bytes};
ghost use Rattle.std.specs.List.{flat_map};
ghost use Rattle.event_log.specs.Entries as logged;
ghost use Rattle.report_lines.specs.Attempts.{attempt_in, AreStatesOf};
ghost use Rattle.report_lines.specs.Objects.{release_in, resolve_in};

use crate::attempts::{AttemptStates, write_attempt};
use crate::objects::{write_release, write_resolve};
use log_entries::Entry;
use report::or_no_text;
use std::alloc::{AllocError, Global};

/// Writes the entry's line, if it has one, at the end of its section.
fn write_outcome(
    attempts: &mut String,
    resolves: &mut String,
    releases: &mut String,
    states: &AttemptStates,
    entry: &Entry,
) -> Result<(), AllocError>
    ensures attempts { (log : List logged.Entry) → AreStatesOf states.now log → OnOk result
        (string_bytes attempts.new ≡ string_bytes attempts.old ++ attempt_in log entry.now) }
    ensures resolves { OnOk result (string_bytes resolves.new ≡ string_bytes resolves.old ++ resolve_in entry.now) }
    ensures releases { OnOk result (string_bytes releases.new ≡ string_bytes releases.old ++ release_in entry.now) }
{
    match entry {
        Entry::Begun { .. } => write_attempt(attempts, states, entry),
        Entry::Resolved { .. } => write_resolve(resolves, entry),
        Entry::Released(_) => write_release(releases, entry),
        _ => Ok(()),
    }
}

/// Writes the lines of attempts, resolves and releases at the text's end.
fn add_outcomes(
    alloc: Global,
    text: &mut String,
    states: &AttemptStates,
    log: &[Entry],
) -> Result<(), AllocError>
    requires { AreStatesOf states.now log.now }
    ensures { OnOk result (string_bytes text.new
        ≡ string_bytes text.old ++ (flat_map (attempt_in log.now) log.now ++ (flat_map resolve_in log.now ++ flat_map release_in log.now))) }
{
    let mut resolves = String::new(alloc);
    let mut releases = String::new(alloc);
    releases.reserve(log.len())?;
    for entry in log {
        write_outcome(text, &mut resolves, &mut releases, states, entry)?;
    }
    text.push_str(&resolves)?;
    text.push_str(&releases)
}

/// Writes a line for each attempt but main's, one for each resolve and one for each release. An error is want of memory, and then nothing is left
/// of the text.
pub fn write_outcomes(
    alloc: Global,
    text: &mut String,
    states: &AttemptStates,
    log: &[Entry],
) -> Result<(), AllocError>
    requires { AreStatesOf states.now log.now }
    ensures done { OnOk result (string_bytes text.new
        ≡ string_bytes text.old ++ (flat_map (attempt_in log.now) log.now ++ (flat_map resolve_in log.now ++ flat_map release_in log.now))) }
    ensures err { OnErr result (string_bytes text.new ≡ []) }
{
    or_no_text(add_outcomes(alloc, text, states, log), text)
}
