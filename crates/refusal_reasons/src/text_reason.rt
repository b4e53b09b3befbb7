// What is told of a text that is no program.

use crate::grammar::{Expectation, Limit, Machine};
use crate::letters::Letters;
use script_tokens::{Placed, Span, tokens_in};
use std::alloc::{AllocError, Global};

fn put_expectation(told: &mut String, expectation: Expectation) -> Result<(), AllocError> {
    match expectation {
        Expectation::Mark(mark) => told.push_str(mark.text()),
        Expectation::Name => told.push_str("NAME"),
        Expectation::Number => told.push_str("INT"),
        Expectation::End => told.push_str("the end of the text"),
    }
}

/// What may stand at a place.
fn put_expected(told: &mut String, expected: &[Expectation]) -> Result<(), AllocError> {
    if expected.len() == 1 {
        told.push_str("    expected:")?;
    } else {
        told.push_str("    expected one of:")?;
    }
    for expectation in expected {
        let is_end = matches!(expectation, Expectation::End) && expected.len() > 1;
        told.push_str(if is_end { " or " } else { " " })?;
        put_expectation(told, *expectation)?;
    }
    Ok(())
}

/// The bytes of a span; none where it isn't within the text.
fn bytes_of(text: &[u8], span: Span) -> &[u8] {
    if span.start <= span.end && span.end <= text.len() {
        &text[span.start..span.end]
    } else {
        b""
    }
}

fn put_found(told: &mut String, text: &[u8], span: Span) -> Result<(), AllocError> {
    let found = bytes_of(text, span);
    if found.is_empty() {
        return told.push_str("\n    found: the end of the text");
    }
    let word = Letters(found);
    write!(told, "\n    found: {word}")
}

/// The place among tokens of the one with this span, or behind the last one, where the span is the text's end.
fn place_among(tokens: &[Placed<'_>], span: Span, length: usize) -> Option<usize> {
    for (i, placed) in tokens.iter().enumerate() {
        if placed.span == span {
            return Some(i);
        }
    }
    if span.start == length && span.end == length {
        return Some(tokens.len());
    }
    None
}

/// What could stand in place of a token that the grammar doesn't allow, or of the text's end.
fn told_expected(alloc: Global, text: &[u8], span: Span) -> Result<Option<String>, AllocError> {
    let Ok(tokens) = tokens_in(alloc, text) else {
        return Ok(None);
    };
    let Some(target) = place_among(&tokens, span, text.len()) else {
        return Ok(None);
    };
    let mut machine = Machine::new(alloc, &tokens, target)?;
    if !machine.run()? || machine.is_allowed || machine.expected.is_empty() {
        return Ok(None);
    }
    let mut told = String::new(alloc);
    put_expected(&mut told, &machine.expected)?;
    put_found(&mut told, text, span)?;
    Ok(Some(told))
}

fn limit_words(limit: Limit) -> &'static str {
    match limit {
        Limit::Functions => "    expected: 64 functions at most\n    found: function 65",
        Limit::Parameters => "    expected: 16 parameters at most\n    found: parameter 17",
        Limit::Tokens => {
            "    expected: 512 tokens in one expression at most\n    found: token 513"
        }
        Limit::Nesting => {
            "    expected: 32 brackets and prefixes open at one place at most\n    found: one more"
        }
    }
}

/// Which limit a text passes.
fn told_limit(alloc: Global, text: &[u8], span: Span) -> Result<Option<String>, AllocError> {
    if span.end == 0 {
        let bytes = "    expected: 65,536 bytes at most\n    found: more";
        return Ok(Some(String::from_str(alloc, bytes)?));
    }
    let Ok(tokens) = tokens_in(alloc, text) else {
        return Ok(None);
    };
    let Some(target) = place_among(&tokens, span, text.len()) else {
        return Ok(None);
    };
    let mut machine = Machine::new(alloc, &tokens, target)?;
    let is_there = machine.run()?;
    match machine.limit {
        Some(limit) if is_there => Ok(Some(String::from_str(alloc, limit_words(limit))?)),
        _ => Ok(None),
    }
}

/// Why bytes are no token.
fn token_words(word: &[u8]) -> &'static str {
    match word {
        [b'a'..=b'z', ..] if word.len() > 64 => "a name has 64 letters, digits and _ at most",
        [b'A'..=b'Z', ..] => "names have small letters, digits and _",
        [b'_', ..] => "names begin with a small letter",
        [b'0', b'0'..=b'9', ..] => "a number has no leading zero",
        [b'0'..=b'9', ..] => {
            "a number is at most 9223372036854775807, and no letter and no _ follows it directly"
        }
        _ => "",
    }
}

/// Which bytes are no token.
fn told_bytes(alloc: Global, text: &[u8], span: Span) -> Result<Option<String>, AllocError> {
    let word = bytes_of(text, span);
    let [first, ..] = word else {
        return Ok(None);
    };
    let first = *first;
    let expected = token_words(word);
    let shown = Letters(word);
    if !expected.is_empty() {
        return Ok(Some(format!(in alloc; "    expected: {expected}\n    found: {shown}")?));
    }
    if first > 32 && first < 127 {
        return Ok(Some(format!(in alloc;
            "    found: {shown}, the byte {first}, which begins no token here"
        )?));
    }
    Ok(Some(format!(in alloc; "    found: the byte {first}, which begins no token here")?))
}

fn told_unknown_byte(alloc: Global, text: &[u8], span: Span) -> Result<Option<String>, AllocError> {
    let [byte] = bytes_of(text, span) else {
        return Ok(None);
    };
    let byte = *byte;
    Ok(Some(format!(in alloc; "    expected: bytes up to 127\n    found: the byte {byte}")?))
}

/// What is told of a text that is refused with this number, 1 to 4, at these bytes, if anything is.
pub(crate) fn told_of_text(alloc: Global, text: &[u8], code: u16, span: Span) -> Option<String> {
    let told = match code {
        1 => told_unknown_byte(alloc, text, span),
        2 => told_bytes(alloc, text, span),
        3 => told_expected(alloc, text, span),
        4 => told_limit(alloc, text, span),
        _ => return None,
    };
    match told {
        Ok(told) => told,
        Err(_) => None,
    }
}
