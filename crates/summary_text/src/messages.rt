// The summary's lines of messages: of each kind that was sent how many were sent and delivered.

ghost use Rattle.std.specs.Prelude.{◌≡◌, ◌++◌, OnOk, string_bytes};
ghost use Rattle.summary_text.specs.Messages.{copy_kinds, end_kinds, kind_line, kind_note, kind_words, lease_kinds, messages_text};

use log_entries::Entry;
use message_counts::{deliveries, sent_count};
use protocol_data::Envelope;
use std::alloc::AllocError;

#[tactic(auto, unfolding(crate::specs::Messages::kind_words))]
fn write_words(
    text: &mut String,
    kind: &str,
    sent: usize,
    delivered: usize,
) -> Result<(), AllocError>
    ensures { OnOk result (string_bytes text.new ≡ string_bytes text.old ++ kind_words kind.now sent delivered) }
{
    write!(text, "message {kind}: {sent} sent, {delivered} delivered\n")
}

fn write_note(
    text: &mut String,
    kind: &str,
    sent: usize,
    delivered: usize,
) -> Result<(), AllocError>
    ensures { OnOk result (string_bytes text.new ≡ string_bytes text.old ++ kind_note kind.now sent delivered) }
{
    if sent == 0 {
        return Ok(());
    }
    write_words(text, kind, sent, delivered)
}

/// Writes how many messages of the kind were sent and delivered, if any was.
#[tactic(auto, unfolding(crate::specs::Messages::kind_line))]
fn write_kind(
    text: &mut String,
    log: &[Entry],
    envelopes: &[Envelope],
    kind: &str,
) -> Result<(), AllocError>
    ensures { OnOk result (string_bytes text.new ≡ string_bytes text.old ++ kind_line log.now envelopes.now kind.now) }
{
    let sent = sent_count(envelopes, kind);
    let delivered = deliveries(envelopes, log, kind);
    write_note(text, kind, sent, delivered)
}

fn write_lease_kinds(
    text: &mut String,
    log: &[Entry],
    envelopes: &[Envelope],
) -> Result<(), AllocError>
    ensures { OnOk result (string_bytes text.new ≡ string_bytes text.old ++ lease_kinds log.now envelopes.now) }
{
    write_kind(text, log, envelopes, "Ask")?;
    write_kind(text, log, envelopes, "Give")?;
    write_kind(text, log, envelopes, "Elsewhere")?;
    write_kind(text, log, envelopes, "Wait")?;
    write_kind(text, log, envelopes, "Back")?;
    write_kind(text, log, envelopes, "Push")
}

fn write_end_kinds(
    text: &mut String,
    log: &[Entry],
    envelopes: &[Envelope],
) -> Result<(), AllocError>
    ensures { OnOk result (string_bytes text.new ≡ string_bytes text.old ++ end_kinds log.now envelopes.now) }
{
    write_kind(text, log, envelopes, "Finished")?;
    write_kind(text, log, envelopes, "FinishedAck")?;
    write_kind(text, log, envelopes, "Failed")?;
    write_kind(text, log, envelopes, "Where")?;
    write_kind(text, log, envelopes, "At")?;
    write_kind(text, log, envelopes, "Gone")?;
    Ok(())
}

fn write_copy_kinds(
    text: &mut String,
    log: &[Entry],
    envelopes: &[Envelope],
) -> Result<(), AllocError>
    ensures { OnOk result (string_bytes text.new ≡ string_bytes text.old ++ copy_kinds log.now envelopes.now) }
{
    write_kind(text, log, envelopes, "Fetch")?;
    write_kind(text, log, envelopes, "Copy")?;
    write_kind(text, log, envelopes, "Missing")?;
    write_kind(text, log, envelopes, "Hold")?;
    write_kind(text, log, envelopes, "HoldAck")?;
    write_kind(text, log, envelopes, "Unhold")
}

/// Writes a line for each kind of messages that were sent.
#[tactic(auto, unfolding(crate::specs::Messages::messages_text))]
pub fn write_messages(
    text: &mut String,
    log: &[Entry],
    envelopes: &[Envelope],
) -> Result<(), AllocError>
    ensures { OnOk result (string_bytes text.new ≡ string_bytes text.old ++ messages_text log.now envelopes.now) }
{
    write_lease_kinds(text, log, envelopes)?;
    write_end_kinds(text, log, envelopes)?;
    write_copy_kinds(text, log, envelopes)
}
