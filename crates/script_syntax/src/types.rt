// How types are read from tokens.

ghost use Rattle.std.specs.Prelude.{◌≡◌, ◌<◌, ◌+◌, IfOk, length, map};
ghost use Rattle.script_tokens.specs.Views.{tokens_of};
ghost use Rattle.script_syntax.specs.Reading.{Gives, kind_at, deeper_kind, no_others, other_kinds, some_results, results_at};
ghost use Rattle.script_syntax.specs.Views.{type_of};

use crate::cursor::{Context, after, deeper, expect, expected, first, no_items};
use crate::refusal::Refusal;
use crate::tree::ValueType;
use script_tokens::{Mark, Placed, Token};

/// The most results of a function, the most values of a return, and the most names of a `let`, beside the first.
pub(crate) const MOST_OTHERS: usize = 3;

/// A type, with that many brackets and prefixes still to open.
#[tactic(auto, unfolding(crate::specs::Reading::kind))]
pub(crate) fn value_type<'t, 'a>(
    context: Context,
    levels: u32,
    tokens: &'t [Placed<'a>],
) -> Result<(ValueType, &'t [Placed<'a>]), Refusal>
    ensures exact { Gives (λ x. (type_of x.0, tokens_of x.1.now)) result (kind_at levels (tokens_of tokens.now)) }
    ensures shorter { IfOk result (λ x. length x.1.now < length tokens.now) }
{
    let Some((token, _, rest)) = first(tokens) else {
        return Err(expected(context, tokens));
    };
    match token {
        Token::Mark(Mark::Int) => Ok((ValueType::Int, rest)),
        Token::Mark(Mark::OpenBracket) => {
            let inner = deeper(context, levels, tokens)?;
            let (item, rest) = value_type(context, inner, rest)?;
            let rest = expect(context, rest, Mark::CloseBracket)?;
            Ok((ValueType::List(Box::new(context.alloc, item)?), rest))
        }
        Token::Mark(Mark::Ref) => {
            let inner = deeper(context, levels, tokens)?;
            let (item, rest) = value_type(context, inner, rest)?;
            Ok((ValueType::Ref(Box::new(context.alloc, item)?), rest))
        }
        _ => Err(expected(context, tokens)),
    }
}

/// Further types, each after a comma: three at most.
fn other_types<'t, 'a>(
    context: Context,
    levels: u32,
    tokens: &'t [Placed<'a>],
) -> Result<(Vec<ValueType>, &'t [Placed<'a>]), Refusal>
    ensures exact { Gives (λ x. (map type_of x.0.items, tokens_of x.1.now)) result (other_kinds (kind_at levels) (tokens_of tokens.now)) }
    ensures no_longer { IfOk result (λ x. length x.1.now < length tokens.now + 1) }
{
    let (mut others, mut rest) = no_items(context, tokens);
    while let Some(more) = after(rest, Mark::Comma) {
        if others.len() == MOST_OTHERS {
            return Err(expected(context, rest));
        }
        let (item, after) = value_type(context, levels, more)?;
        others.push(item)?;
        rest = after;
    }
    Ok((others, rest))
}

/// There are no further types.
fn no_others(types: &[ValueType]) -> bool
    ensures { result ≡ no_others (map type_of types.now) }
{
    let [_first, _others @ ..] = types else {
        return true;
    };
    false
}

/// Two types to four, up to the parenthesis that closes.
#[tactic(auto, unfolding(crate::specs::Reading::some_results))]
fn some_results<'t, 'a>(
    context: Context,
    levels: u32,
    tokens: &'t [Placed<'a>],
) -> Result<(ValueType, Vec<ValueType>, &'t [Placed<'a>]), Refusal>
    ensures exact { Gives (λ x. ((type_of x.0, map type_of x.1.items), tokens_of x.2.now)) result (some_results (kind_at levels) (tokens_of tokens.now)) }
    ensures shorter { IfOk result (λ x. length x.2.now < length tokens.now) }
{
    let (first, rest) = value_type(context, levels, tokens)?;
    let (others, rest) = other_types(context, levels, rest)?;
    if no_others(&others) {
        return Err(expected(context, rest));
    }
    let rest = expect(context, rest, Mark::CloseParenthesis)?;
    Ok((first, others, rest))
}

/// The types of a function's results: one type, or two to four in parentheses.
#[tactic(auto, unfolding(crate::specs::Reading::results))]
pub(crate) fn results<'t, 'a>(
    context: Context,
    levels: u32,
    tokens: &'t [Placed<'a>],
) -> Result<(ValueType, Vec<ValueType>, &'t [Placed<'a>]), Refusal>
    ensures exact { Gives (λ x. ((type_of x.0, map type_of x.1.items), tokens_of x.2.now)) result (results_at levels (tokens_of tokens.now)) }
    ensures shorter { IfOk result (λ x. length x.2.now < length tokens.now) }
{
    let Some(more) = after(tokens, Mark::OpenParenthesis) else {
        let (result, rest) = value_type(context, levels, tokens)?;
        return Ok((result, Vec::new(context.alloc), rest));
    };
    let inner = deeper(context, levels, tokens)?;
    some_results(context, inner, more)
}
