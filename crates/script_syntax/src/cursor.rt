// The first of the tokens that are left.

ghost use Rattle.std.specs.Prelude.{◌≡◌, ◌<◌, ◌+◌, IfOk, IfSome, MatchOption, None, Some, length, [], ◌∷◌};
ghost use Rattle.std.specs.String.{string_bytes};
ghost use Rattle.script_tokens.specs.Views.{token_of, tokens_of};
ghost use Rattle.script_syntax.specs.Reading.{
  Gives,
  Shows,
  mark_number,
  after,
  before,
  unless,
  unless_end,
  numbered,
  named,
  adding,
  multiplying,
  comparing,
  prefixing,
  kind_at,
  deeper_kind,
  unary_at,
  deeper,
  statement_at,
  deeper_statement,
};

use crate::refusal::Refusal;
use crate::tree::{BinaryOperator, Name, Prefix};
use script_tokens::{Mark, Placed, Span, Token};
use std::alloc::Global;

/// What stays the same while a text is parsed.
#[derive(Clone, Copy)]
pub(crate) struct Context {
    pub(crate) alloc: Global,
    /// How long the text is, in bytes.
    pub(crate) length: usize,
}

/// The refusal where the tokens end too early.
pub(crate) fn ends(context: Context) -> Refusal {
    Refusal::Expected(Span {
        start: context.length,
        end: context.length,
    })
}

/// The refusal of the first token, or of the end.
pub(crate) fn expected(context: Context, tokens: &[Placed]) -> Refusal {
    match tokens {
        [] => ends(context),
        [first, ..] => Refusal::Expected(first.span),
    }
}

/// The refusal of the first token as one past a limit.
pub(crate) fn too_large(context: Context, tokens: &[Placed]) -> Refusal {
    match tokens {
        [] => ends(context),
        [first, ..] => Refusal::TooLarge(first.span),
    }
}

/// What stands from the first of the tokens up to those that are left.
pub(crate) fn span_over(tokens: &[Placed], rest: &[Placed]) -> Span {
    let taken = &tokens[..tokens.len().saturating_sub(rest.len())];
    match taken {
        [] => Span { start: 0, end: 0 },
        [only] => only.span,
        [first, .., last] => Span {
            start: first.span.start,
            end: last.span.end,
        },
    }
}

/// The first token, where it stands, and the tokens after it.
pub(crate) fn first<'t, 'a>(tokens: &'t [Placed<'a>]) -> Option<(Token<'a>, Span, &'t [Placed<'a>])>
    ensures front { MatchOption result (tokens_of tokens.now ≡ []) (λ x. tokens_of tokens.now ≡ token_of x.0 ∷ tokens_of x.2.now) }
    ensures shorter { IfSome result (λ x. length x.2.now < length tokens.now) }
{
    let [first, rest @ ..] = tokens else {
        return None;
    };
    Some((first.token, first.span, rest))
}

fn number_of(mark: Mark) -> u8
    ensures { result ≡ mark_number mark }
{
    mark as u8
}

/// What follows that mark, if it is the first.
pub(crate) fn after<'t, 'a>(tokens: &'t [Placed<'a>], wanted: Mark) -> Option<&'t [Placed<'a>]>
    ensures front { Shows (λ x. (tt, tokens_of x.now)) result (after wanted (tokens_of tokens.now)) }
    ensures shorter { IfSome result (λ x. length x.now < length tokens.now) }
{
    let [first, rest @ ..] = tokens else {
        return None;
    };
    match first.token {
        Token::Mark(mark) if number_of(mark) == number_of(wanted) => Some(rest),
        _ => None,
    }
}

/// The tokens, if that mark is the first.
pub(crate) fn before<'t, 'a>(tokens: &'t [Placed<'a>], wanted: Mark) -> Option<&'t [Placed<'a>]>
    ensures front { Shows (λ x. (tt, tokens_of x.now)) result (before wanted (tokens_of tokens.now)) }
    ensures same { IfSome result (λ x. x.now ≡ tokens.now) }
{
    let Some(_) = after(tokens, wanted) else {
        return None;
    };
    Some(tokens)
}

/// The tokens, if that mark isn't the first.
pub(crate) fn unless<'t, 'a>(tokens: &'t [Placed<'a>], unwanted: Mark) -> Option<&'t [Placed<'a>]>
    ensures front { Shows (λ x. (tt, tokens_of x.now)) result (unless unwanted (tokens_of tokens.now)) }
    ensures same { IfSome result (λ x. x.now ≡ tokens.now) }
{
    let None = after(tokens, unwanted) else {
        return None;
    };
    Some(tokens)
}

/// The tokens, if there are some.
pub(crate) fn unless_end<'t, 'a>(tokens: &'t [Placed<'a>]) -> Option<&'t [Placed<'a>]>
    ensures front { Shows (λ x. (tt, tokens_of x.now)) result (unless_end (tokens_of tokens.now)) }
    ensures same { IfSome result (λ x. x.now ≡ tokens.now) }
{
    let [_, ..] = tokens else {
        return None;
    };
    Some(tokens)
}

/// Nothing yet, and all of the tokens: what a loop over items begins with.
pub(crate) fn no_items<'t, 'a, T>(
    context: Context,
    tokens: &'t [Placed<'a>],
) -> (Vec<T>, &'t [Placed<'a>])
    ensures none { result.0.items ≡ [] }
    ensures all { result.1.now ≡ tokens.now }
{
    (Vec::new(context.alloc), tokens)
}

/// What follows that mark, which has to be the first.
pub(crate) fn expect<'t, 'a>(
    context: Context,
    tokens: &'t [Placed<'a>],
    wanted: Mark,
) -> Result<&'t [Placed<'a>], Refusal>
    ensures exact { Gives (λ x. (tt, tokens_of x.now)) result (after wanted (tokens_of tokens.now)) }
    ensures shorter { IfOk result (λ x. length x.now < length tokens.now) }
{
    let Some(rest) = after(tokens, wanted) else {
        return Err(expected(context, tokens));
    };
    Ok(rest)
}

/// A number, where it stands.
pub(crate) fn number<'t, 'a>(
    context: Context,
    tokens: &'t [Placed<'a>],
) -> Result<(u64, Span, &'t [Placed<'a>]), Refusal>
    ensures exact { Gives (λ x. (x.0, tokens_of x.2.now)) result (numbered (tokens_of tokens.now)) }
    ensures shorter { IfOk result (λ x. length x.2.now < length tokens.now) }
{
    let Some((Token::Int(number), span, rest)) = first(tokens) else {
        return Err(expected(context, tokens));
    };
    Ok((number, span, rest))
}

/// A name, where it stands.
pub(crate) fn name<'t, 'a>(
    context: Context,
    tokens: &'t [Placed<'a>],
) -> Result<(Name, &'t [Placed<'a>]), Refusal>
    ensures exact { Gives (λ x. (string_bytes x.0.text, tokens_of x.1.now)) result (named (tokens_of tokens.now)) }
    ensures shorter { IfOk result (λ x. length x.1.now < length tokens.now) }
{
    let Some((Token::Name(name), span, rest)) = first(tokens) else {
        return Err(expected(context, tokens));
    };
    let text = String::from_str(context.alloc, name)?;
    Ok((Name { text, span }, rest))
}

/// The operator of a sum, `+` or `-`, and the tokens behind it; none where the first token is another.
pub(crate) fn adding<'t, 'a>(tokens: &'t [Placed<'a>]) -> Option<(BinaryOperator, &'t [Placed<'a>])>
    ensures front { Shows (λ x. (x.0, tokens_of x.1.now)) result (adding (tokens_of tokens.now)) }
    ensures shorter { IfSome result (λ x. length x.1.now < length tokens.now) }
{
    let [first, rest @ ..] = tokens else {
        return None;
    };
    match first.token {
        Token::Mark(Mark::Plus) => Some((BinaryOperator::Add, rest)),
        Token::Mark(Mark::Minus) => Some((BinaryOperator::Sub, rest)),
        _ => None,
    }
}

/// The operator of a product, `*`, `/` or `%`, and the tokens behind it; none where the first token is another.
pub(crate) fn multiplying<'t, 'a>(
    tokens: &'t [Placed<'a>],
) -> Option<(BinaryOperator, &'t [Placed<'a>])>
    ensures front { Shows (λ x. (x.0, tokens_of x.1.now)) result (multiplying (tokens_of tokens.now)) }
    ensures shorter { IfSome result (λ x. length x.1.now < length tokens.now) }
{
    let [first, rest @ ..] = tokens else {
        return None;
    };
    match first.token {
        Token::Mark(Mark::Times) => Some((BinaryOperator::Mul, rest)),
        Token::Mark(Mark::Slash) => Some((BinaryOperator::Div, rest)),
        Token::Mark(Mark::Percent) => Some((BinaryOperator::Rem, rest)),
        _ => None,
    }
}

/// The operator of a comparison, `==`, `!=`, `<` or `<=`, and the tokens behind it; none where the first token is another.
pub(crate) fn comparing<'t, 'a>(
    tokens: &'t [Placed<'a>],
) -> Option<(BinaryOperator, &'t [Placed<'a>])>
    ensures front { Shows (λ x. (x.0, tokens_of x.1.now)) result (comparing (tokens_of tokens.now)) }
    ensures shorter { IfSome result (λ x. length x.1.now < length tokens.now) }
{
    let [first, rest @ ..] = tokens else {
        return None;
    };
    match first.token {
        Token::Mark(Mark::Equal) => Some((BinaryOperator::Equal, rest)),
        Token::Mark(Mark::NotEqual) => Some((BinaryOperator::NotEqual, rest)),
        Token::Mark(Mark::Less) => Some((BinaryOperator::Less, rest)),
        Token::Mark(Mark::LessEqual) => Some((BinaryOperator::LessEqual, rest)),
        _ => None,
    }
}

/// What stands before an operand, `-`, `get` or `put`, and the tokens behind it; none where the first token is another.
pub(crate) fn prefixing<'t, 'a>(tokens: &'t [Placed<'a>]) -> Option<(Prefix, &'t [Placed<'a>])>
    ensures front { Shows (λ x. (x.0, tokens_of x.1.now)) result (prefixing (tokens_of tokens.now)) }
    ensures shorter { IfSome result (λ x. length x.1.now < length tokens.now) }
{
    let [first, rest @ ..] = tokens else {
        return None;
    };
    match first.token {
        Token::Mark(Mark::Minus) => Some((Prefix::Negate, rest)),
        Token::Mark(Mark::Get) => Some((Prefix::Get, rest)),
        Token::Mark(Mark::Put) => Some((Prefix::Put, rest)),
        _ => None,
    }
}

/// How many brackets and prefixes may be open inside the one that the first token opens.
#[tactic(auto, unfolding(crate::specs::Reading::deeper, crate::specs::Reading::deeper_kind, crate::specs::Reading::deeper_statement))]
pub(crate) fn deeper(context: Context, levels: u32, tokens: &[Placed]) -> Result<u32, Refusal>
    ensures expressions { Gives (λ n. unary_at n) result (deeper levels) }
    ensures types { Gives (λ n. kind_at n) result (deeper_kind levels) }
    ensures statements { Gives (λ n. statement_at n) result (deeper_statement levels) }
    ensures fewer { IfOk result (λ n. n + 1 ≡ levels) }
{
    if levels == 0 {
        return Err(too_large(context, tokens));
    }
    Ok(levels - 1)
}
