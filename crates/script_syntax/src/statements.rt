// Statements, as they are read: each function gives the tree and the tokens that are left, with that many brackets
// and prefixes still to open.

ghost use Rattle.std.specs.Prelude.{◌≡◌, ◌<◌, ◌+◌, IfOk, length, map};
ghost use Rattle.std.specs.String.{string_bytes};
ghost use Rattle.script_tokens.specs.Views.{tokens_of};
ghost use Rattle.script_syntax.specs.declared.refusal.Refusal.TheVariants.{NoMemory};
ghost use Rattle.script_syntax.specs.Trees.{If as IfTree, IfElse, For as ForTree};
ghost use Rattle.script_syntax.specs.Reading.{
  Gives,
  outermost,
  outermost_call,
  let_called,
  ended,
  assigned,
  no_others,
  other_names,
  valued,
  declared,
  other_values,
  returned,
  branches,
  repeated,
  statement,
  statements,
  block,
  statement_at,
  block_at,
};
ghost use Rattle.script_syntax.specs.Views.{name_of, tree_of, trees_of, statement_of, statements_of};
ghost use Rattle.script_syntax.specs.Calls.{callee_of};

use crate::cursor::{Context, after, deeper, expect, expected, first, name, no_items, unless};
use crate::expressions::{Callee, called, expression};
use crate::refusal::Refusal;
use crate::tree::{Block, Expr, Name, Statement};
use crate::types::MOST_OTHERS;
use script_tokens::{Mark, Placed, Span, Token};

/// The most tokens of an outermost expression.
const MOST_TOKENS: usize = 512;

/// What an outermost expression is refused for: its token past the limit, where that stands before.
fn earlier(refusal: Refusal, tokens: &[Placed]) -> Refusal
    ensures { refusal ≡ NoMemory → result ≡ NoMemory }
{
    let place = match refusal {
        Refusal::Expected(span) | Refusal::TooLarge(span) => span.start,
        Refusal::NoMemory => return refusal,
    };
    match tokens.get(MOST_TOKENS) {
        Some(past) if past.span.start < place => Refusal::TooLarge(past.span),
        _ => refusal,
    }
}

/// An expression that stands in no other: its tokens are counted.
#[tactic(auto, unfolding(crate::specs::Reading::outermost))]
fn outermost<'t, 'a>(
    context: Context,
    levels: u32,
    tokens: &'t [Placed<'a>],
) -> Result<(Expr, &'t [Placed<'a>]), Refusal>
    ensures exact { Gives (λ x. (tree_of x.0, tokens_of x.1.now)) result (outermost levels (tokens_of tokens.now)) }
    ensures shorter { IfOk result (λ x. length x.1.now < length tokens.now) }
{
    match expression(context, levels, tokens) {
        Err(refusal) => Err(earlier(refusal, tokens)),
        Ok((tree, rest)) => {
            if tokens.len() - rest.len() > MOST_TOKENS {
                return Err(Refusal::TooLarge(tokens[MOST_TOKENS].span));
            }
            Ok((tree, rest))
        }
    }
}

/// A call that stands in no expression: its tokens are counted as those of one.
#[tactic(auto, unfolding(crate::specs::Reading::outermost_call))]
fn outermost_call<'t, 'a>(
    context: Context,
    levels: u32,
    tokens: &'t [Placed<'a>],
) -> Result<(Callee, &'t [Placed<'a>]), Refusal>
    ensures exact { Gives (λ x. (callee_of x.0, tokens_of x.1.now)) result (outermost_call levels (tokens_of tokens.now)) }
    ensures shorter { IfOk result (λ x. length x.1.now < length tokens.now) }
{
    match called(context, levels, tokens) {
        Err(refusal) => Err(earlier(refusal, tokens)),
        Ok((call, rest)) => {
            if tokens.len() - rest.len() > MOST_TOKENS {
                return Err(Refusal::TooLarge(tokens[MOST_TOKENS].span));
            }
            Ok((call, rest))
        }
    }
}

/// An outermost expression and a semicolon.
#[tactic(auto, unfolding(crate::specs::Reading::ended))]
fn ended<'t, 'a>(
    context: Context,
    levels: u32,
    tokens: &'t [Placed<'a>],
) -> Result<(Expr, &'t [Placed<'a>]), Refusal>
    ensures exact { Gives (λ x. (tree_of x.0, tokens_of x.1.now)) result (ended (outermost levels) (tokens_of tokens.now)) }
    ensures shorter { IfOk result (λ x. length x.1.now < length tokens.now) }
{
    let (value, rest) = outermost(context, levels, tokens)?;
    let rest = expect(context, rest, Mark::Semicolon)?;
    Ok((value, rest))
}

/// A name and what it is to be.
#[tactic(auto, unfolding(crate::specs::Reading::assigned))]
fn assigned<'t, 'a>(
    context: Context,
    levels: u32,
    tokens: &'t [Placed<'a>],
) -> Result<(Name, Expr, &'t [Placed<'a>]), Refusal>
    ensures exact { Gives (λ x. ((string_bytes x.0.text, tree_of x.1), tokens_of x.2.now)) result (assigned (outermost levels) (tokens_of tokens.now)) }
    ensures shorter { IfOk result (λ x. length x.2.now < length tokens.now) }
{
    let (name, rest) = name(context, tokens)?;
    let rest = expect(context, rest, Mark::Assign)?;
    let (value, rest) = ended(context, levels, rest)?;
    Ok((name, value, rest))
}

/// Further names, each after a comma: three at most.
fn other_names<'t, 'a>(
    context: Context,
    tokens: &'t [Placed<'a>],
) -> Result<(Vec<Name>, &'t [Placed<'a>]), Refusal>
    ensures exact { Gives (λ x. (map name_of x.0.items, tokens_of x.1.now)) result (other_names (tokens_of tokens.now)) }
    ensures no_longer { IfOk result (λ x. length x.1.now < length tokens.now + 1) }
{
    let (mut others, mut rest) = no_items(context, tokens);
    while let Some(more) = after(rest, Mark::Comma) {
        if others.len() == MOST_OTHERS {
            return Err(expected(context, rest));
        }
        let (item, after) = name(context, more)?;
        others.push(item)?;
        rest = after;
    }
    Ok((others, rest))
}

/// There are no further names.
fn no_others(names: &[Name]) -> bool
    ensures { result ≡ no_others (map name_of names.now) }
{
    let [_first, _others @ ..] = names else {
        return true;
    };
    false
}

/// A declaration of several names.
fn let_called(first: Name, others: Vec<Name>, call: Callee) -> Statement
    ensures { statement_of result ≡ let_called (name_of first) (map name_of others.items) (callee_of call) }
{
    match call {
        Callee::AsPart(function, arguments) => {
            Statement::LetCall(first, others, function, arguments)
        }
        Callee::AsTask(retries, function, arguments) => {
            Statement::LetRemote(first, others, retries, function, arguments)
        }
    }
}

/// What follows the names of a `let`, and `=`: an expression for one name, a call for several.
#[tactic(auto, unfolding(crate::specs::Reading::valued))]
fn valued<'t, 'a>(
    context: Context,
    levels: u32,
    first: Name,
    others: Vec<Name>,
    tokens: &'t [Placed<'a>],
) -> Result<(Statement, &'t [Placed<'a>]), Refusal>
    ensures exact { Gives (λ x. (statement_of x.0, tokens_of x.1.now)) result
        (valued (outermost levels) (outermost_call levels) (name_of first) (map name_of others.items) (tokens_of tokens.now)) }
    ensures shorter { IfOk result (λ x. length x.1.now < length tokens.now) }
{
    if no_others(&others) {
        let (value, rest) = ended(context, levels, tokens)?;
        return Ok((Statement::Let(first, value), rest));
    }
    let (call, rest) = outermost_call(context, levels, tokens)?;
    let rest = expect(context, rest, Mark::Semicolon)?;
    Ok((let_called(first, others, call), rest))
}

/// What follows `let`.
#[tactic(auto, unfolding(crate::specs::Reading::declared))]
fn declared<'t, 'a>(
    context: Context,
    levels: u32,
    tokens: &'t [Placed<'a>],
) -> Result<(Statement, &'t [Placed<'a>]), Refusal>
    ensures exact { Gives (λ x. (statement_of x.0, tokens_of x.1.now)) result (declared (outermost levels) (outermost_call levels) (tokens_of tokens.now)) }
    ensures shorter { IfOk result (λ x. length x.1.now < length tokens.now) }
{
    let (first, rest) = name(context, tokens)?;
    let (others, rest) = other_names(context, rest)?;
    let rest = expect(context, rest, Mark::Assign)?;
    valued(context, levels, first, others, rest)
}

/// Further outermost expressions, each after a comma: three at most.
fn other_values<'t, 'a>(
    context: Context,
    levels: u32,
    tokens: &'t [Placed<'a>],
) -> Result<(Vec<Expr>, &'t [Placed<'a>]), Refusal>
    ensures exact { Gives (λ x. (trees_of x.0.items, tokens_of x.1.now)) result (other_values (outermost levels) (tokens_of tokens.now)) }
    ensures no_longer { IfOk result (λ x. length x.1.now < length tokens.now + 1) }
{
    let (mut others, mut rest) = no_items(context, tokens);
    while let Some(more) = after(rest, Mark::Comma) {
        if others.len() == MOST_OTHERS {
            return Err(expected(context, rest));
        }
        let (item, after) = outermost(context, levels, more)?;
        others.push(item)?;
        rest = after;
    }
    Ok((others, rest))
}

/// What follows `return`, which stands there.
#[tactic(auto, unfolding(crate::specs::Reading::returned))]
fn returned<'t, 'a>(
    context: Context,
    levels: u32,
    span: Span,
    tokens: &'t [Placed<'a>],
) -> Result<(Statement, &'t [Placed<'a>]), Refusal>
    ensures exact { Gives (λ x. (statement_of x.0, tokens_of x.1.now)) result (returned (outermost levels) (tokens_of tokens.now)) }
    ensures shorter { IfOk result (λ x. length x.1.now < length tokens.now) }
{
    let (first, rest) = outermost(context, levels, tokens)?;
    let (others, rest) = other_values(context, levels, rest)?;
    let rest = expect(context, rest, Mark::Semicolon)?;
    Ok((Statement::Return(span, first, others), rest))
}

fn if_alone(condition: Expr, taken: Block) -> Statement
    ensures { statement_of result ≡ IfTree (tree_of condition) (statements_of taken.statements.items) }
{
    Statement::If(condition, taken, None)
}

fn if_else(condition: Expr, taken: Block, other: Block) -> Statement
    ensures { statement_of result ≡ IfElse (tree_of condition) (statements_of taken.statements.items) (statements_of other.statements.items) }
{
    Statement::If(condition, taken, Some(other))
}

fn for_each(name: Name, first: Expr, last: Expr, body: Block) -> Statement
    ensures { statement_of result ≡ ForTree (string_bytes name.text) (tree_of first) (tree_of last) (statements_of body.statements.items) }
{
    Statement::For(name, first, last, body)
}

/// What follows `if`.
#[cycle(statements)]
#[tactic(auto, unfolding(crate::specs::Reading::branches))]
fn branches<'t, 'a>(
    context: Context,
    levels: u32,
    tokens: &'t [Placed<'a>],
) -> Result<(Statement, &'t [Placed<'a>]), Refusal>
    ensures exact { Gives (λ x. (statement_of x.0, tokens_of x.1.now)) result (branches (outermost levels) (block_at levels) (tokens_of tokens.now)) }
    ensures shorter { IfOk result (λ x. length x.1.now < length tokens.now) }
{
    let (condition, rest) = outermost(context, levels, tokens)?;
    let (taken, rest) = block(context, levels, rest)?;
    let Some(more) = after(rest, Mark::Else) else {
        return Ok((if_alone(condition, taken), rest));
    };
    let (other, rest) = block(context, levels, more)?;
    Ok((if_else(condition, taken, other), rest))
}

/// What follows `for`.
#[cycle(statements)]
#[tactic(auto, unfolding(crate::specs::Reading::repeated))]
fn repeated<'t, 'a>(
    context: Context,
    levels: u32,
    tokens: &'t [Placed<'a>],
) -> Result<(Statement, &'t [Placed<'a>]), Refusal>
    ensures exact { Gives (λ x. (statement_of x.0, tokens_of x.1.now)) result (repeated (outermost levels) (block_at levels) (tokens_of tokens.now)) }
    ensures shorter { IfOk result (λ x. length x.1.now < length tokens.now) }
{
    let (name, rest) = name(context, tokens)?;
    let rest = expect(context, rest, Mark::In)?;
    let (first, rest) = outermost(context, levels, rest)?;
    let rest = expect(context, rest, Mark::Range)?;
    let (last, rest) = outermost(context, levels, rest)?;
    let (body, rest) = block(context, levels, rest)?;
    Ok((for_each(name, first, last, body), rest))
}

#[cycle(statements)]
#[tactic(auto, unfolding(crate::specs::Reading::statement))]
fn statement<'t, 'a>(
    context: Context,
    levels: u32,
    tokens: &'t [Placed<'a>],
) -> Result<(Statement, &'t [Placed<'a>]), Refusal>
    ensures exact { Gives (λ x. (statement_of x.0, tokens_of x.1.now)) result (statement_at levels (tokens_of tokens.now)) }
    ensures shorter { IfOk result (λ x. length x.1.now < length tokens.now) }
{
    let Some((token, span, rest)) = first(tokens) else {
        return Err(expected(context, tokens));
    };
    match token {
        Token::Mark(Mark::Let) => declared(context, levels, rest),
        Token::Mark(Mark::Set) => {
            let (name, value, rest) = assigned(context, levels, rest)?;
            Ok((Statement::Set(name, value), rest))
        }
        Token::Mark(Mark::If) => branches(context, levels, rest),
        Token::Mark(Mark::For) => repeated(context, levels, rest),
        Token::Mark(Mark::Print) => {
            let (value, rest) = ended(context, levels, rest)?;
            Ok((Statement::Print(span, value), rest))
        }
        Token::Mark(Mark::Return) => returned(context, levels, span, rest),
        _ => Err(expected(context, tokens)),
    }
}

/// Statements in braces.
#[cycle(statements)]
#[tactic(auto, unfolding(crate::specs::Reading::block))]
pub(crate) fn block<'t, 'a>(
    context: Context,
    levels: u32,
    tokens: &'t [Placed<'a>],
) -> Result<(Block, &'t [Placed<'a>]), Refusal>
    ensures exact { Gives (λ x. (statements_of x.0.statements.items, tokens_of x.1.now)) result (block_at levels (tokens_of tokens.now)) }
    ensures shorter { IfOk result (λ x. length x.1.now < length tokens.now) }
{
    let more = expect(context, tokens, Mark::OpenBrace)?;
    let inner = deeper(context, levels, tokens)?;
    let (statements, rest) = statements(context, inner, more)?;
    let rest = expect(context, rest, Mark::CloseBrace)?;
    Ok((Block { statements }, rest))
}

/// Statements up to the closing brace.
#[cycle(statements)]
fn statements<'t, 'a>(
    context: Context,
    levels: u32,
    tokens: &'t [Placed<'a>],
) -> Result<(Vec<Statement>, &'t [Placed<'a>]), Refusal>
    ensures exact { Gives (λ x. (statements_of x.0.items, tokens_of x.1.now)) result (statements (statement_at levels) (tokens_of tokens.now)) }
    ensures no_longer { IfOk result (λ x. length x.1.now < length tokens.now + 1) }
{
    let (mut statements, mut rest) = no_items(context, tokens);
    while let Some(more) = unless(rest, Mark::CloseBrace) {
        let (item, after) = statement(context, levels, more)?;
        statements.push(item)?;
        rest = after;
    }
    Ok((statements, rest))
}
