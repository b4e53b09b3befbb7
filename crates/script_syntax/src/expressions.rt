// Expressions, as they are read: each function gives the tree and the tokens that are left, with that many brackets
// and prefixes still to open.

ghost use Rattle.std.specs.Prelude.{◌≡◌, ◌<◌, ◌+◌, IfOk, length};
ghost use Rattle.script_tokens.specs.Views.{tokens_of};
ghost use Rattle.std.specs.String.{string_bytes};
ghost use Rattle.script_syntax.specs.Trees.{Binary, Item, Call as CallTree, Remote as RemoteTree, ListOf};
ghost use Rattle.script_syntax.specs.Reading.{
  Gives,
  product,
  sum,
  expression,
  items,
  arguments,
  enclosed,
  retries,
  pair,
  primary,
  postfix,
  unary_at,
  kind_at,
  deeper,
  expression_at,
  called,
};
ghost use Rattle.script_syntax.specs.Views.{tree_of, trees_of, kind_tree, retries_of};
ghost use Rattle.script_syntax.specs.Calls.{callee_of};

use crate::cursor::{
    Context, adding, after, before, comparing, deeper, expect, expected, first, multiplying, name,
    number, prefixing, span_over,
};
use crate::refusal::Refusal;
use crate::tree::{BinaryOperator, Expr, ExprKind, Name, Retries};
use crate::types::value_type;
use script_tokens::{Mark, Placed, Span, Token};
use std::alloc::{AllocError, Global};

/// What a `let` of several names calls.
#[derive(Drop)]
pub(crate) enum Callee {
    /// The name of a function, and what it is called with.
    AsPart(Name, Vec<Expr>),
    /// The same as a task.
    AsTask(Option<Retries>, Name, Vec<Expr>),
}

/// What stands from the first of the tokens up to those that are left, as an expression.
fn over(kind: ExprKind, tokens: &[Placed], rest: &[Placed]) -> Expr
    ensures { tree_of result ≡ kind_tree kind }
{
    let span = span_over(tokens, rest);
    Expr { kind, span }
}

/// Two expressions under an operator.
fn binary(
    alloc: Global,
    operator: BinaryOperator,
    left: Expr,
    right: Expr,
) -> Result<Expr, AllocError>
    ensures { IfOk result (λ e. tree_of e ≡ Binary operator (tree_of left) (tree_of right)) }
{
    let span = Span {
        start: left.span.start,
        end: right.span.end,
    };
    let kind = ExprKind::Binary(operator, Box::new(alloc, left)?, Box::new(alloc, right)?);
    Ok(Expr { kind, span })
}

/// An index behind a list, as an expression over that span.
fn item(alloc: Global, list: Expr, place: Expr, span: Span) -> Result<Expr, AllocError>
    ensures { IfOk result (λ e. tree_of e ≡ Item (tree_of list) (tree_of place)) }
{
    let kind = ExprKind::Index(Box::new(alloc, list)?, Box::new(alloc, place)?);
    Ok(Expr { kind, span })
}

fn call(function: Name, arguments: Vec<Expr>) -> ExprKind
    ensures { kind_tree result ≡ CallTree (string_bytes function.text) (trees_of arguments.items) }
{
    ExprKind::Call(function, arguments)
}

fn remote(retries: Option<Retries>, function: Name, arguments: Vec<Expr>) -> ExprKind
    ensures { kind_tree result ≡ RemoteTree (retries_of retries) (string_bytes function.text) (trees_of arguments.items) }
{
    ExprKind::Remote(retries, function, arguments)
}

fn list(items: Vec<Expr>) -> ExprKind
    ensures { kind_tree result ≡ ListOf (trees_of items.items) }
{
    ExprKind::List(items)
}

/// The number of new runs of a remote call, if one is written.
#[tactic(auto, unfolding(crate::specs::Reading::retries))]
fn retries<'t, 'a>(
    context: Context,
    levels: u32,
    tokens: &'t [Placed<'a>],
) -> Result<(Option<Retries>, &'t [Placed<'a>]), Refusal>
    ensures exact { Gives (λ x. (retries_of x.0, tokens_of x.1.now)) result (retries (deeper levels) (tokens_of tokens.now)) }
    ensures no_longer { IfOk result (λ x. length x.1.now < length tokens.now + 1) }
{
    let Some(rest) = after(tokens, Mark::OpenParenthesis) else {
        return Ok((None, tokens));
    };
    let _ = deeper(context, levels, tokens)?;
    let (number, span, rest) = number(context, rest)?;
    let rest = expect(context, rest, Mark::CloseParenthesis)?;
    Ok((Some(Retries { number, span }), rest))
}

/// A comparison at most.
#[cycle(expressions)]
#[tactic(auto, unfolding(crate::specs::Reading::expression))]
pub(crate) fn expression<'t, 'a>(
    context: Context,
    levels: u32,
    tokens: &'t [Placed<'a>],
) -> Result<(Expr, &'t [Placed<'a>]), Refusal>
    ensures exact { Gives (λ x. (tree_of x.0, tokens_of x.1.now)) result (expression_at levels (tokens_of tokens.now)) }
    ensures shorter { IfOk result (λ x. length x.1.now < length tokens.now) }
{
    let (left, rest) = sum(context, levels, tokens)?;
    let Some((operator, more)) = comparing(rest) else {
        return Ok((left, rest));
    };
    let (right, rest) = sum(context, levels, more)?;
    let compared = binary(context.alloc, operator, left, right)?;
    Ok((compared, rest))
}

/// Sums and differences, grouped to the left.
#[cycle(expressions)]
fn sum<'t, 'a>(
    context: Context,
    levels: u32,
    tokens: &'t [Placed<'a>],
) -> Result<(Expr, &'t [Placed<'a>]), Refusal>
    ensures exact { Gives (λ x. (tree_of x.0, tokens_of x.1.now)) result (sum (unary_at levels) (tokens_of tokens.now)) }
    ensures shorter { IfOk result (λ x. length x.1.now < length tokens.now) }
{
    let (mut left, mut rest) = product(context, levels, tokens)?;
    while let Some((operator, more)) = adding(rest) {
        let (right, after) = product(context, levels, more)?;
        left = binary(context.alloc, operator, left, right)?;
        rest = after;
    }
    Ok((left, rest))
}

/// Products, quotients and remainders, grouped to the left.
#[cycle(expressions)]
fn product<'t, 'a>(
    context: Context,
    levels: u32,
    tokens: &'t [Placed<'a>],
) -> Result<(Expr, &'t [Placed<'a>]), Refusal>
    ensures exact { Gives (λ x. (tree_of x.0, tokens_of x.1.now)) result (product (unary_at levels) (tokens_of tokens.now)) }
    ensures shorter { IfOk result (λ x. length x.1.now < length tokens.now) }
{
    let (mut left, mut rest) = unary(context, levels, tokens)?;
    while let Some((operator, more)) = multiplying(rest) {
        let (right, after) = unary(context, levels, more)?;
        left = binary(context.alloc, operator, left, right)?;
        rest = after;
    }
    Ok((left, rest))
}

/// Prefixes, and what they stand before.
#[cycle(expressions)]
#[tactic(auto, unfolding(crate::specs::Reading::unary))]
fn unary<'t, 'a>(
    context: Context,
    levels: u32,
    tokens: &'t [Placed<'a>],
) -> Result<(Expr, &'t [Placed<'a>]), Refusal>
    ensures exact { Gives (λ x. (tree_of x.0, tokens_of x.1.now)) result (unary_at levels (tokens_of tokens.now)) }
    ensures shorter { IfOk result (λ x. length x.1.now < length tokens.now) }
{
    let Some((prefix, more)) = prefixing(tokens) else {
        return postfix(context, levels, tokens);
    };
    let inner = deeper(context, levels, tokens)?;
    let (operand, rest) = unary(context, inner, more)?;
    let kind = ExprKind::Prefixed(prefix, Box::new(context.alloc, operand)?);
    Ok((over(kind, tokens, rest), rest))
}

/// What indexes follow, and they, grouped to the left.
#[cycle(expressions)]
fn postfix<'t, 'a>(
    context: Context,
    levels: u32,
    tokens: &'t [Placed<'a>],
) -> Result<(Expr, &'t [Placed<'a>]), Refusal>
    ensures exact { Gives (λ x. (tree_of x.0, tokens_of x.1.now)) result (postfix (kind_at levels) (deeper levels) (tokens_of tokens.now)) }
    ensures shorter { IfOk result (λ x. length x.1.now < length tokens.now) }
{
    let (mut left, mut rest) = primary(context, levels, tokens)?;
    while let Some(opened) = before(rest, Mark::OpenBracket) {
        let (place, after) = enclosed(
            context,
            levels,
            opened,
            Mark::OpenBracket,
            Mark::CloseBracket,
        )?;
        left = item(context.alloc, left, place, span_over(tokens, after))?;
        rest = after;
    }
    Ok((left, rest))
}

/// What binds tightest.
#[cycle(expressions)]
#[tactic(auto, unfolding(crate::specs::Reading::primary))]
fn primary<'t, 'a>(
    context: Context,
    levels: u32,
    tokens: &'t [Placed<'a>],
) -> Result<(Expr, &'t [Placed<'a>]), Refusal>
    ensures exact { Gives (λ x. (tree_of x.0, tokens_of x.1.now)) result (primary (kind_at levels) (deeper levels) (tokens_of tokens.now)) }
    ensures shorter { IfOk result (λ x. length x.1.now < length tokens.now) }
{
    let Some((token, span, rest)) = first(tokens) else {
        return Err(expected(context, tokens));
    };
    match token {
        Token::Int(number) => {
            let kind = ExprKind::Int(number);
            Ok((Expr { kind, span }, rest))
        }
        Token::Name(text) => {
            let text = String::from_str(context.alloc, text)?;
            let name = Name { text, span };
            if before(rest, Mark::OpenParenthesis).is_none() {
                let kind = ExprKind::Variable(name);
                return Ok((Expr { kind, span }, rest));
            }
            let (arguments, rest) = arguments(context, levels, rest)?;
            Ok((over(call(name, arguments), tokens, rest), rest))
        }
        Token::Mark(Mark::Remote) => {
            let (retries, rest) = retries(context, levels, rest)?;
            let (name, rest) = name(context, rest)?;
            let (arguments, rest) = arguments(context, levels, rest)?;
            Ok((over(remote(retries, name, arguments), tokens, rest), rest))
        }
        Token::Mark(Mark::OpenBracket) => {
            let inner = deeper(context, levels, tokens)?;
            let (items, rest) = items(context, inner, rest)?;
            let rest = expect(context, rest, Mark::CloseBracket)?;
            Ok((over(list(items), tokens, rest), rest))
        }
        Token::Mark(Mark::Empty) => {
            let (kind, rest) = value_type(context, levels, rest)?;
            Ok((over(ExprKind::Empty(kind), tokens, rest), rest))
        }
        Token::Mark(Mark::OpenParenthesis) => {
            let (open, close) = (Mark::OpenParenthesis, Mark::CloseParenthesis);
            let (inside, rest) = enclosed(context, levels, tokens, open, close)?;
            Ok((over(inside.kind, tokens, rest), rest))
        }
        Token::Mark(Mark::Len) => {
            let (open, close) = (Mark::OpenParenthesis, Mark::CloseParenthesis);
            let (inside, rest) = enclosed(context, levels, rest, open, close)?;
            let kind = ExprKind::Len(Box::new(context.alloc, inside)?);
            Ok((over(kind, tokens, rest), rest))
        }
        Token::Mark(Mark::Push) => {
            let (left, right, rest) = pair(context, levels, rest)?;
            let left = Box::new(context.alloc, left)?;
            let kind = ExprKind::Push(left, Box::new(context.alloc, right)?);
            Ok((over(kind, tokens, rest), rest))
        }
        Token::Mark(_) => Err(expected(context, tokens)),
    }
}

/// An expression between two marks.
#[cycle(expressions)]
#[tactic(auto, unfolding(crate::specs::Reading::enclosed))]
fn enclosed<'t, 'a>(
    context: Context,
    levels: u32,
    tokens: &'t [Placed<'a>],
    open: Mark,
    close: Mark,
) -> Result<(Expr, &'t [Placed<'a>]), Refusal>
    ensures exact { Gives (λ x. (tree_of x.0, tokens_of x.1.now)) result (enclosed (deeper levels) «open» close (tokens_of tokens.now)) }
    ensures shorter { IfOk result (λ x. length x.1.now < length tokens.now) }
{
    let rest = expect(context, tokens, open)?;
    let inner = deeper(context, levels, tokens)?;
    let (inside, rest) = expression(context, inner, rest)?;
    let rest = expect(context, rest, close)?;
    Ok((inside, rest))
}

/// Two expressions in parentheses.
#[cycle(expressions)]
#[tactic(auto, unfolding(crate::specs::Reading::pair))]
fn pair<'t, 'a>(
    context: Context,
    levels: u32,
    tokens: &'t [Placed<'a>],
) -> Result<(Expr, Expr, &'t [Placed<'a>]), Refusal>
    ensures exact { Gives (λ x. ((tree_of x.0, tree_of x.1), tokens_of x.2.now)) result (pair (deeper levels) (tokens_of tokens.now)) }
    ensures shorter { IfOk result (λ x. length x.2.now < length tokens.now) }
{
    let rest = expect(context, tokens, Mark::OpenParenthesis)?;
    let inner = deeper(context, levels, tokens)?;
    let (left, rest) = expression(context, inner, rest)?;
    let rest = expect(context, rest, Mark::Comma)?;
    let (right, rest) = expression(context, inner, rest)?;
    let rest = expect(context, rest, Mark::CloseParenthesis)?;
    Ok((left, right, rest))
}

/// The arguments of a call, in parentheses.
#[cycle(expressions)]
#[tactic(auto, unfolding(crate::specs::Reading::arguments))]
fn arguments<'t, 'a>(
    context: Context,
    levels: u32,
    tokens: &'t [Placed<'a>],
) -> Result<(Vec<Expr>, &'t [Placed<'a>]), Refusal>
    ensures exact { Gives (λ x. (trees_of x.0.items, tokens_of x.1.now)) result (arguments (deeper levels) (tokens_of tokens.now)) }
    ensures shorter { IfOk result (λ x. length x.1.now < length tokens.now) }
{
    let more = expect(context, tokens, Mark::OpenParenthesis)?;
    let inner = deeper(context, levels, tokens)?;
    if let Some(rest) = after(more, Mark::CloseParenthesis) {
        return Ok((Vec::new(context.alloc), rest));
    }
    let (items, rest) = items(context, inner, more)?;
    let rest = expect(context, rest, Mark::CloseParenthesis)?;
    Ok((items, rest))
}

/// One expression or more, with commas between.
#[cycle(expressions)]
fn items<'t, 'a>(
    context: Context,
    levels: u32,
    tokens: &'t [Placed<'a>],
) -> Result<(Vec<Expr>, &'t [Placed<'a>]), Refusal>
    ensures exact { Gives (λ x. (trees_of x.0.items, tokens_of x.1.now)) result (items (unary_at levels) (tokens_of tokens.now)) }
    ensures shorter { IfOk result (λ x. length x.1.now < length tokens.now) }
{
    let (first, mut rest) = expression(context, levels, tokens)?;
    let mut items = Vec::new(context.alloc);
    items.push(first)?;
    while let Some(more) = after(rest, Mark::Comma) {
        let (item, after) = expression(context, levels, more)?;
        items.push(item)?;
        rest = after;
    }
    Ok((items, rest))
}

/// A call, maybe as a task, with nothing round it.
#[tactic(auto, unfolding(crate::specs::Reading::called))]
pub(crate) fn called<'t, 'a>(
    context: Context,
    levels: u32,
    tokens: &'t [Placed<'a>],
) -> Result<(Callee, &'t [Placed<'a>]), Refusal>
    ensures exact { Gives (λ x. (callee_of x.0, tokens_of x.1.now)) result (called (deeper levels) (tokens_of tokens.now)) }
    ensures shorter { IfOk result (λ x. length x.1.now < length tokens.now) }
{
    let Some(more) = after(tokens, Mark::Remote) else {
        let (function, rest) = name(context, tokens)?;
        let (arguments, rest) = arguments(context, levels, rest)?;
        return Ok((Callee::AsPart(function, arguments), rest));
    };
    let (retries, rest) = retries(context, levels, more)?;
    let (function, rest) = name(context, rest)?;
    let (arguments, rest) = arguments(context, levels, rest)?;
    Ok((Callee::AsTask(retries, function, arguments), rest))
}
