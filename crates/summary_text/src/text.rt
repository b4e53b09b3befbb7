// The whole summary of a run, of its log and its messages.

ghost use Rattle.std.specs.Prelude.{◌≡◌, ◌++◌, IfOk, OnOk, string_bytes};
ghost use Rattle.report_text.specs.of_report_lines.Attempts.{AreStatesOf};
ghost use Rattle.log_words.specs.Index.{IsIndexOf};
ghost use Rattle.summary_text.specs.Text.{parts_text, summary_text};

use crate::events::write_events;
use crate::functions::write_functions;
use crate::messages::write_messages;
use crate::opened::write_opened;
use log_entries::Entry;
use log_words::BirthIndex;
use protocol_data::Envelope;
use report_text::AttemptStates;
use std::alloc::{AllocError, Global};

fn write_parts(
    text: &mut String,
    index: &BirthIndex,
    states: &AttemptStates,
    log: &[Entry],
    envelopes: &[Envelope],
) -> Result<(), AllocError>
    ensures { IsIndexOf index.now log.now → AreStatesOf states.now log.now → OnOk result
        (string_bytes text.new ≡ string_bytes text.old ++ parts_text log.now envelopes.now) }
{
    write_functions(text, index, states, log)?;
    write_messages(text, log, envelopes)?;
    write_events(text, log)?;
    write_opened(text, log)?;
    Ok(())
}

fn write_parts_of(
    alloc: Global,
    text: &mut String,
    index: &BirthIndex,
    log: &[Entry],
    envelopes: &[Envelope],
) -> Result<(), AllocError>
    requires { IsIndexOf index.now log.now }
    ensures { OnOk result (string_bytes text.new ≡ string_bytes text.old ++ parts_text log.now envelopes.now) }
{
    let states = AttemptStates::of(alloc, log)?;
    let written = write_parts(text, index, &states, log, envelopes);
    drop(states);
    written
}

/// What a run with this log and these messages came to, behind a line `summary`: a line for each function, main first and the others in the order in
/// which their first tasks were born; for each kind of messages that were sent; for each kind of events that came; and for the workers that were
/// opened. docs/state.md says what each number counts.
#[tactic(auto, unfolding(crate::specs::Text::summary_text))]
pub fn summary_text(
    alloc: Global,
    log: &[Entry],
    envelopes: &[Envelope],
) -> Result<String, AllocError>
    ensures { IfOk result (λ text. string_bytes text ≡ summary_text log.now envelopes.now) }
{
    let mut text = String::from_str(alloc, "summary\n")?;
    let index = BirthIndex::of(alloc, log)?;
    let written = write_parts_of(alloc, &mut text, &index, log, envelopes);
    drop(index);
    written?;
    Ok(text)
}
