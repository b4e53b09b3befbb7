// How functions and whole programs are read from tokens, within the limits.

ghost use Rattle.std.specs.Prelude.{◌≡◌, ◌<◌, ◌+◌, IfOk, length, map};
ghost use Rattle.script_tokens.specs.Views.{tokens_of};
ghost use Rattle.script_syntax.specs.Reading.{Gives, parameter, some_parameters, parameters, function, program, kind_at, deeper_kind};
ghost use Rattle.script_syntax.specs.Views.{parameter_of, function_of, program_of};

use crate::cursor::{
    Context, after, deeper, expect, expected, first, name, no_items, too_large, unless_end,
};
use crate::refusal::Refusal;
use crate::statements::block;
use crate::tree::{Function, Parameter};
use crate::types::{results, value_type};
use script_tokens::{Mark, Placed, Token};

/// How many brackets and prefixes may be open at one place.
const MOST_OPEN: u32 = 32;

/// The most parameters of a function.
const MOST_PARAMETERS: usize = 16;

/// The most functions of a script.
const MOST_FUNCTIONS: usize = 64;

/// A parameter with its type.
#[tactic(auto, unfolding(crate::specs::Reading::parameter))]
fn parameter<'t, 'a>(
    context: Context,
    levels: u32,
    tokens: &'t [Placed<'a>],
) -> Result<(Parameter, &'t [Placed<'a>]), Refusal>
    ensures exact { Gives (λ x. (parameter_of x.0, tokens_of x.1.now)) result (parameter (kind_at levels) (tokens_of tokens.now)) }
    ensures shorter { IfOk result (λ x. length x.1.now < length tokens.now) }
{
    let (name, rest) = name(context, tokens)?;
    let rest = expect(context, rest, Mark::Colon)?;
    let (kind, rest) = value_type(context, levels, rest)?;
    Ok((Parameter { name, kind }, rest))
}

/// The refusal of one parameter too many: of its name, if it has one.
fn one_parameter_too_many(context: Context, tokens: &[Placed]) -> Refusal {
    match first(tokens) {
        Some((Token::Name(_), _, _)) => too_large(context, tokens),
        _ => expected(context, tokens),
    }
}

/// One parameter or more, with commas between.
fn some_parameters<'t, 'a>(
    context: Context,
    levels: u32,
    tokens: &'t [Placed<'a>],
) -> Result<(Vec<Parameter>, &'t [Placed<'a>]), Refusal>
    ensures exact { Gives (λ x. (map parameter_of x.0.items, tokens_of x.1.now)) result (some_parameters (kind_at levels) (tokens_of tokens.now)) }
    ensures shorter { IfOk result (λ x. length x.1.now < length tokens.now) }
{
    let (first, mut rest) = parameter(context, levels, tokens)?;
    let mut parameters = Vec::new(context.alloc);
    parameters.push(first)?;
    while let Some(more) = after(rest, Mark::Comma) {
        if parameters.len() == MOST_PARAMETERS {
            return Err(one_parameter_too_many(context, more));
        }
        let (item, after) = parameter(context, levels, more)?;
        parameters.push(item)?;
        rest = after;
    }
    Ok((parameters, rest))
}

/// The parameters of a function, in parentheses.
#[tactic(auto, unfolding(crate::specs::Reading::parameters))]
fn parameters<'t, 'a>(
    context: Context,
    levels: u32,
    tokens: &'t [Placed<'a>],
) -> Result<(Vec<Parameter>, &'t [Placed<'a>]), Refusal>
    ensures exact { Gives (λ x. (map parameter_of x.0.items, tokens_of x.1.now)) result (parameters (deeper_kind levels) (tokens_of tokens.now)) }
    ensures shorter { IfOk result (λ x. length x.1.now < length tokens.now) }
{
    let more = expect(context, tokens, Mark::OpenParenthesis)?;
    let inner = deeper(context, levels, tokens)?;
    if let Some(rest) = after(more, Mark::CloseParenthesis) {
        return Ok((Vec::new(context.alloc), rest));
    }
    let (parameters, rest) = some_parameters(context, inner, more)?;
    let rest = expect(context, rest, Mark::CloseParenthesis)?;
    Ok((parameters, rest))
}

#[tactic(auto, unfolding(crate::specs::Reading::function))]
fn function<'t, 'a>(
    context: Context,
    tokens: &'t [Placed<'a>],
) -> Result<(Function, &'t [Placed<'a>]), Refusal>
    ensures exact { Gives (λ x. (function_of x.0, tokens_of x.1.now)) result (function (tokens_of tokens.now)) }
    ensures shorter { IfOk result (λ x. length x.1.now < length tokens.now) }
{
    let rest = expect(context, tokens, Mark::Fn)?;
    let (name, rest) = name(context, rest)?;
    let (parameters, rest) = parameters(context, MOST_OPEN, rest)?;
    let rest = expect(context, rest, Mark::Arrow)?;
    let (result, others, rest) = results(context, MOST_OPEN, rest)?;
    let (body, rest) = block(context, MOST_OPEN, rest)?;
    let function = Function {
        name,
        parameters,
        result,
        others,
        body,
    };
    Ok((function, rest))
}

/// The refusal of one function too many: of its `fn`, if it has one.
fn one_function_too_many(context: Context, tokens: &[Placed]) -> Refusal {
    match after(tokens, Mark::Fn) {
        Some(_) => too_large(context, tokens),
        None => expected(context, tokens),
    }
}

/// The functions of a script, all of the tokens.
pub(crate) fn functions(context: Context, tokens: &[Placed]) -> Result<Vec<Function>, Refusal>
    ensures { Gives (λ x. program_of x.items) result (program (tokens_of tokens.now)) }
{
    let (mut functions, mut rest) = no_items(context, tokens);
    while let Some(more) = unless_end(rest) {
        if functions.len() == MOST_FUNCTIONS {
            return Err(one_function_too_many(context, more));
        }
        let (item, after) = function(context, more)?;
        functions.push(item)?;
        rest = after;
    }
    Ok(functions)
}
