// A piece of a script, on one line.

ghost use Rattle.std.specs.Prelude.{◌≡◌, ◌≤◌, ◌++◌, ◌∷◌, [], OnOk, length, map, string_bytes};
ghost use Rattle.trap_places.specs.Excerpts.{bytes_of, excerpt, is_line_end, letter, line_length, rest_sign, shown_length};

use script_tokens::Span;
use std::alloc::AllocError;

/// A byte as it is shown: one that is no letter or sign of ASCII as a question mark, a tab as a space.
fn letter(byte: u8) -> u8
    ensures shown { result ≡ letter byte }
    ensures ascii { result ≤ 127 }
{
    if byte > 31 && byte < 127 {
        return byte;
    }
    if byte == b'\t' {
        return b' ';
    }
    b'?'
}

fn is_line_end(byte: u8) -> bool
    ensures { result ≡ is_line_end byte }
{
    byte == b'\n' || byte == b'\r'
}

/// How many bytes stand before the end of the first line.
fn line_length(bytes: &[u8]) -> usize
    ensures counted { result ≡ line_length bytes.now }
    ensures within { result ≤ length bytes.now }
{
    for (place, byte) in bytes.iter().enumerate() {
        if is_line_end(*byte) {
            return place;
        }
    }
    bytes.len()
}

/// How many bytes of the line are shown, 60 at most.
#[tactic(auto, unfolding(crate::specs::Excerpts::shown_length))]
fn shown_length(bytes: &[u8]) -> usize
    ensures counted { result ≡ shown_length bytes.now }
    ensures within { result ≤ length bytes.now }
{
    line_length(bytes).min(60)
}

fn write_letter(text: &mut String, byte: u8) -> Result<(), AllocError>
    ensures { OnOk result (string_bytes text.new ≡ string_bytes text.old ++ map letter (byte ∷ [])) }
{
    text.push(char::from(letter(byte)))
}

fn write_letters(text: &mut String, bytes: &[u8]) -> Result<(), AllocError>
    ensures { OnOk result (string_bytes text.new ≡ string_bytes text.old ++ map letter bytes.now) }
{
    for byte in bytes {
        write_letter(text, *byte)?;
    }
    Ok(())
}

fn write_rest(text: &mut String, is_more: bool) -> Result<(), AllocError>
    ensures { OnOk result (string_bytes text.new ≡ string_bytes text.old ++ rest_sign is_more) }
{
    if is_more {
        return text.push_str(" ..");
    }
    Ok(())
}

/// Writes the beginning of a piece, as far as its first line, and of that 60 bytes at most.
pub(crate) fn write_excerpt(text: &mut String, bytes: &[u8]) -> Result<(), AllocError>
    ensures { OnOk result (string_bytes text.new ≡ string_bytes text.old ++ excerpt bytes.now) }
{
    let shown = shown_length(bytes);
    write_letters(text, &bytes[..shown])?;
    write_rest(text, shown < bytes.len())
}

/// The bytes of a span; past the text's end there are none.
pub(crate) fn bytes_of(script: &[u8], span: Span) -> &[u8]
    ensures { result.now ≡ bytes_of script.now span }
{
    let rest = &script[span.start.min(script.len())..];
    let size = span.end.saturating_sub(span.start);
    &rest[..size.min(rest.len())]
}
