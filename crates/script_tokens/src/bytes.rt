// Bytes by kind, and runs of them.

ghost use Rattle.std.specs.Prelude.{◌≡◌};
ghost use Rattle.script_tokens.specs.Bytes.{is_blank, is_digit, is_letter, in_word, in_run, in_line, is_ascii, front, past};

/// Whether it is a space, a tab, a carriage return or a line feed.
pub fn is_blank(byte: u8) -> bool
    ensures { result ≡ is_blank byte }
{
    byte == b' ' || byte == b'\t' || byte == b'\r' || byte == b'\n'
}

/// Whether it is a small letter, `a` to `z`; names have no capital ones.
pub fn is_letter(byte: u8) -> bool
    ensures { result ≡ is_letter byte }
{
    byte >= b'a' && byte <= b'z'
}

/// Whether it is a decimal digit, `0` to `9`.
pub fn is_digit(byte: u8) -> bool
    ensures { result ≡ is_digit byte }
{
    byte >= b'0' && byte <= b'9'
}

fn in_word(byte: u8) -> bool
    ensures { result ≡ in_word byte }
{
    is_letter(byte) || is_digit(byte) || byte == b'_'
}

fn in_run(byte: u8) -> bool
    ensures { result ≡ in_run byte }
{
    in_word(byte) || (byte >= b'A' && byte <= b'Z')
}

/// The small letters, digits and `_` at the front, and what follows them.
pub fn word_run(text: &[u8]) -> (&[u8], &[u8])
    ensures word { result.0.now ≡ front in_word text.now }
    ensures after { result.1.now ≡ past in_word text.now }
{
    let mut n = 0;
    while n < text.len() && in_word(text[n]) {
        n += 1;
    }
    text.split_at(n)
}

/// The letters, digits and `_` at the front, and what follows them.
pub fn whole_run(text: &[u8]) -> (&[u8], &[u8])
    ensures run { result.0.now ≡ front in_run text.now }
    ensures after { result.1.now ≡ past in_run text.now }
{
    let mut n = 0;
    while n < text.len() && in_run(text[n]) {
        n += 1;
    }
    text.split_at(n)
}

/// The text up to its first byte above 127.
pub fn ascii_front(text: &[u8]) -> &[u8]
    ensures { result.now ≡ front is_ascii text.now }
{
    let mut n = 0;
    while n < text.len() && text[n] < 128 {
        n += 1;
    }
    &text[..n]
}

/// What follows the line's end.
pub fn past_line(text: &[u8]) -> &[u8]
    ensures { result.now ≡ past in_line text.now }
{
    let mut rest = text;
    while let [byte, more @ ..] = rest {
        if *byte == b'\n' {
            return rest;
        }
        rest = more;
    }
    rest
}
