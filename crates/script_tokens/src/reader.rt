// Tokens, read from left to right.

ghost use Rattle.std.specs.Prelude.{
  ◌≡◌,
  ◌<◌,
  ◌≤◌,
  ◌+◌,
  ◌^◌,
  ℕ,
  IfOk,
  IfErr,
  MatchResult,
  MatchOption,
  OnOk,
  None,
  Some,
  true,
  ◌++◌,
  length,
  max,
  List,
  [],
};
ghost use Rattle.script_tokens.specs.declared.error.SyntaxError.{SyntaxError};
ghost use Rattle.script_tokens.specs.declared.error.SyntaxError.TheVariants as errors;
ghost use Rattle.script_tokens.specs.Tokens.{Token as AToken};
ghost use Rattle.script_tokens.specs.Bytes.{in_word, in_run, all, front};
ghost use Rattle.script_tokens.specs.Texts.{Piece, IsTextBefore, AreTokens};
ghost use Rattle.script_tokens.specs.Refusals.{IsRefusal};
ghost use Rattle.script_tokens.specs.Places.{ArePlaced};
ghost use Rattle.script_tokens.specs.Lexing.{word_token, next, listed, placed, IsStop};
ghost use Rattle.script_tokens.specs.Views.{token_of, tokens_of};

use crate::bytes::{ascii_front, is_blank, is_digit, is_letter, past_line, whole_run, word_run};
use crate::error::SyntaxError;
use crate::marks::{reserved_word, symbol_at};
use crate::numbers::number_of;
use crate::token::{Placed, Span, Token};
use std::alloc::{AllocError, Global};

/// The bytes of the longest text.
const LONGEST: usize = 65_536;

fn word_text(word: &[u8]) -> &str
    requires { all in_word word.now ≡ true }
    ensures { result.now ≡ word.now }
{
    match str::from_utf8(word) {
        Ok(text) => text,
        Err(_) => unreachable!(),
    }
}

/// The token of a word that begins with a letter.
#[tactic(auto, unfolding(crate::specs::Lexing::word_token))]
fn word_token<'a>(word: &'a [u8]) -> Option<Token<'a>>
    requires { all in_word word.now ≡ true }
    ensures { MatchOption result (word_token word.now ≡ None)
        (λ t. word_token word.now ≡ Some (token_of t)) }
{
    if let Some(mark) = reserved_word(word) {
        return Some(Token::Mark(mark));
    }
    if word.len() > 64 {
        return None;
    }
    Some(Token::Name(word_text(word)))
}

/// The next piece's token, if it has one, and what follows it.
#[tactic(auto, unfolding(crate::specs::Lexing::next))]
fn next<'a>(text: &'a [u8]) -> Option<(Option<Token<'a>>, &'a [u8])>
    ensures { MatchOption result (next text.now ≡ None)
        (λ x. next text.now ≡ Some (listed x.0, x.1.now)) }
{
    let [first, rest @ ..] = text else {
        return None;
    };
    if is_blank(*first) {
        return Some((None, rest));
    }
    if *first == b'#' {
        return Some((None, past_line(rest)));
    }
    if is_letter(*first) {
        let (word, after) = word_run(text);
        let Some(token) = word_token(word) else {
            return None;
        };
        return Some((Some(token), after));
    }
    if is_digit(*first) {
        let (run, after) = whole_run(text);
        let Some(number) = number_of(run) else {
            return None;
        };
        return Some((Some(Token::Int(number)), after));
    }
    let Some((mark, after)) = symbol_at(text) else {
        return None;
    };
    Some((Some(Token::Mark(mark)), after))
}

/// One more token, if there is one.
fn keep<'a>(
    tokens: &mut Vec<Placed<'a>>,
    token: Option<Token<'a>>,
    span: Span,
) -> Result<(), AllocError>
    ensures { OnOk result (tokens.new.items ≡ tokens.old.items ++ placed token.entry span) }
{
    let Some(token) = token else {
        return Ok(());
    };
    tokens.push(Placed { token, span })?;
    Ok(())
}

/// The run of letters, digits and `_` that begins there, or one byte.
fn bad_span(start: usize, rest: &[u8]) -> Span
    requires some { 0 < length rest.now }
    requires fits { start + length rest.now < 2 ^ 64 }
    ensures begins { result.start ≡ start }
    ensures stops { result.end ≡ result.start + max 1 (length (front in_run rest.now)) }
{
    let (run, _) = whole_run(rest);
    let length = run.len().max(1);
    Span {
        start,
        end: start + length,
    }
}

/// The tokens of a text, where they stand.
fn lexed<'a>(alloc: Global, text: &'a [u8]) -> Result<Vec<Placed<'a>>, SyntaxError>
    requires { length text.now ≤ 65536 }
    ensures found { IfOk result (λ v. (pieces : List Piece)
        × IsTextBefore [] pieces (tokens_of v.items) text.now) }
    ensures placed { IfOk result (λ v. ArePlaced text.now 0 v.items (length text.now)) }
    ensures refused { IfErr result (λ e. IsStop text.now e) }
{
    let mut tokens = Vec::new(alloc);
    let mut rest = text;
    while !rest.is_empty() {
        let start = text.len() - rest.len();
        let Some((token, after)) = next(rest) else {
            return Err(SyntaxError::BadToken(bad_span(start, rest)));
        };
        let end = text.len() - after.len();
        keep(&mut tokens, token, Span { start, end })?;
        rest = after;
    }
    Ok(tokens)
}

/// The tokens of a script's text, in order, where they stand.
///
/// A text of more than 65,536 bytes is refused first, `TooLarge` at 0..0. Otherwise the first fault
/// from the left is answered: `NotAscii` at a byte above 127, also in a comment, or `BadToken` at a
/// byte or a word that is no token, with the span of the whole run of letters, digits and `_` that
/// begins there, or else of the byte. `NoMemory` may come in place of any answer but `TooLarge`;
/// `Expected` is never answered.
pub fn tokens_in<'a>(alloc: Global, text: &'a [u8]) -> Result<Vec<Placed<'a>>, SyntaxError>
    // What is read is the text's tokens.
    ensures found { IfOk result (λ v. AreTokens text.now (tokens_of v.items)) }
    // The bytes of each span are its token's, and the spans rise.
    ensures placed { IfOk result (λ v. ArePlaced text.now 0 v.items (length text.now)) }
    // A text that has tokens is read, unless memory runs out.
    ensures read { (tokens : List AToken) → AreTokens text.now tokens
        → MatchResult result (λ v. tokens_of v.items ≡ tokens) (λ e. e ≡ errors.NoMemory) }
    // A text is refused only for its cause, where it first stands.
    ensures refused { IfErr result (λ e. IsRefusal text.now e) }
{
    if text.len() > LONGEST {
        return Err(SyntaxError::TooLarge(Span { start: 0, end: 0 }));
    }
    let ascii = ascii_front(text);
    let tokens = lexed(alloc, ascii)?;
    let start = ascii.len();
    if start < text.len() {
        return Err(SyntaxError::NotAscii(Span {
            start,
            end: start + 1,
        }));
    }
    Ok(tokens)
}
