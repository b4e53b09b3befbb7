// The line of a message: who sends it with which number to whom, and what it says.

ghost use Rattle.std.specs.Prelude.{◌≡◌, ◌+◌, ◌++◌, ◌<◌, ◌^◌, OnOk, length, string_bytes};
ghost use Rattle.message_text.specs.Envelopes.{envelope_head, envelope_line, envelopes_text};

use crate::endpoints::write_endpoint;
use crate::kinds::write_message;
use log_words::Contents;
use protocol_data::Envelope;
use std::alloc::AllocError;

fn write_head(text: &mut String, number: usize, envelope: &Envelope) -> Result<(), AllocError>
    ensures { OnOk result (string_bytes text.new ≡ string_bytes text.old ++ envelope_head number envelope.now) }
{
    text.push_str("    ")?;
    write_endpoint(text, envelope.sender)?;
    write!(text, " sends message {number} to ")?;
    write_endpoint(text, envelope.receiver)?;
    text.push_str(": ")
}

fn write_envelope(
    text: &mut String,
    contents: Contents,
    number: usize,
    envelope: &Envelope,
) -> Result<(), AllocError>
    ensures { OnOk result (string_bytes text.new ≡ string_bytes text.old ++ envelope_line contents number envelope.now) }
{
    write_head(text, number, envelope)?;
    write_message(text, contents, &envelope.message)?;
    text.push_str("\n")
}

/// Writes the messages behind the first `before`, a line each, with their numbers.
pub fn write_envelopes(
    text: &mut String,
    contents: Contents,
    before: usize,
    envelopes: &[Envelope],
) -> Result<(), AllocError>
    requires { before + length envelopes.now < 2 ^ 64 }
    ensures { OnOk result (string_bytes text.new ≡ string_bytes text.old ++ envelopes_text contents before envelopes.now) }
{
    for (place, envelope) in envelopes.iter().enumerate() {
        write_envelope(text, contents, before + place + 1, envelope)?;
    }
    Ok(())
}
