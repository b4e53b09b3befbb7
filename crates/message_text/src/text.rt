// A log in words, with the messages that each event sent.

ghost use Rattle.std.specs.Prelude.{◌≡◌, ◌++◌, IfOk, OnOk, string_bytes};
ghost use Rattle.log_words.specs.Index.{IsIndexOf};
ghost use Rattle.message_text.specs.Text.{log_with_messages};

use crate::sent::{is_over_at, write_sent_where_over};
use log_entries::Entry;
use log_text::write_line;
use log_words::{BirthIndex, Contents, Told, is_refusal_at};
use protocol_data::Envelope;
use std::alloc::{AllocError, Global};

fn write_all(
    alloc: Global,
    text: &mut String,
    contents: Contents,
    index: &BirthIndex,
    log: &[Entry],
    envelopes: &[Envelope],
    sent: &[usize],
) -> Result<(), AllocError>
    requires { IsIndexOf index.now log.now }
    ensures { OnOk result (string_bytes text.new ≡ string_bytes text.old ++ log_with_messages contents log.now envelopes.now sent.now) }
{
    let mut told = Told::new(alloc);
    for (place, entry) in log.iter().enumerate() {
        let is_refused = is_refusal_at(log, place + 1);
        write_line(text, contents, index, log, &told, entry, is_refused)?;
        told.note(entry, is_refused)?;
        let is_over = is_over_at(log, place + 1);
        write_sent_where_over(text, contents, envelopes, sent, told.events, is_over)?;
    }
    Ok(())
}

/// The log in words, as `log_text` has it, and below what came of each event a line for each message that the event sent: who sent it to
/// whom, its number, and what it says, as docs/protocol.md has it. `envelopes` are all messages in the order of their numbers, and `sent` is
/// how many had been sent behind each event. An event without a count sent nothing, and so one behind it.
pub fn log_with_messages(
    alloc: Global,
    contents: Contents,
    log: &[Entry],
    envelopes: &[Envelope],
    sent: &[usize],
) -> Result<String, AllocError>
    ensures { IfOk result (λ text. string_bytes text ≡ log_with_messages contents log.now envelopes.now sent.now) }
{
    let mut text = String::new(alloc);
    let index = BirthIndex::of(alloc, log)?;
    let written = write_all(alloc, &mut text, contents, &index, log, envelopes, sent);
    drop(index);
    written?;
    Ok(text)
}
