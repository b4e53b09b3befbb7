// Types and expressions, written: each function adds tokens at the end.

ghost use Rattle.std.specs.Prelude.{◌≡◌, OnOk, nat_lt, ◌∷◌};
ghost use Rattle.std.specs.String.{string_bytes};
ghost use Rattle.script_tokens.specs.Tokens.{number, name, mark};
ghost use Rattle.script_syntax.specs.Operators.{prefix_mark};
ghost use Rattle.script_syntax.specs.Expressions.{kind_before, retries_before, expression_before, arguments_before, more_before};
ghost use Rattle.script_syntax.specs.Views.{type_of, retries_of, kind_tree, tree_of, trees_of};
ghost use Rattle.script_syntax.specs.Printing.{written, written_arguments, written_others, expression_of};
ghost use Rattle.script_syntax.specs.Writing.{
  Writes,
  tightness,
  word_of_operator,
  left_word,
  right_word,
  operator_mark,
  bare_word,
  bare_before,
  wanted_before,
  has_items,
  call_before,
};

use crate::tree::{BinaryOperator, Expr, ExprKind, Name, Prefix, Retries, ValueType};
use script_tokens::{Mark, Token};
use std::alloc::AllocError;

/// A word of the grammar that an expression is to be, the loosest first.
#[derive(Clone, Copy)]
enum Word {
    Expression,
    Sum,
    Product,
    Unary,
    Postfix,
}

/// How tight a word is.
fn tightness(word: Word) -> u8
    ensures { result ≡ tightness word }
{
    match word {
        Word::Expression => 0,
        Word::Sum => 1,
        Word::Product => 2,
        Word::Unary => 3,
        Word::Postfix => 4,
    }
}

/// The word that an operator's expression is.
fn word_of_operator(operator: BinaryOperator) -> Word
    ensures { result ≡ word_of_operator operator }
{
    match operator {
        BinaryOperator::Add | BinaryOperator::Sub => Word::Sum,
        BinaryOperator::Mul | BinaryOperator::Div | BinaryOperator::Rem => Word::Product,
        BinaryOperator::Equal
        | BinaryOperator::NotEqual
        | BinaryOperator::Less
        | BinaryOperator::LessEqual => Word::Expression,
    }
}

/// The word that an expression is without parentheses round it.
fn word_of(kind: &ExprKind) -> Word
    ensures { result ≡ bare_word (written (kind_tree kind.now)) }
{
    match kind {
        ExprKind::Binary(operator, _, _) => word_of_operator(*operator),
        ExprKind::Prefixed(_, _) => Word::Unary,
        _ => Word::Postfix,
    }
}

/// One word is looser than another.
fn is_looser(word: Word, wanted: Word) -> bool
    ensures { result ≡ nat_lt (tightness word) (tightness wanted) }
{
    tightness(word) < tightness(wanted)
}

/// The word that an operator's left operand is to be.
fn left_word(operator: BinaryOperator) -> Word
    ensures { result ≡ left_word operator }
{
    match operator {
        BinaryOperator::Mul | BinaryOperator::Div | BinaryOperator::Rem => Word::Product,
        _ => Word::Sum,
    }
}

/// The word that an operator's right operand is to be.
fn right_word(operator: BinaryOperator) -> Word
    ensures { result ≡ right_word operator }
{
    match operator {
        BinaryOperator::Add | BinaryOperator::Sub => Word::Product,
        BinaryOperator::Mul | BinaryOperator::Div | BinaryOperator::Rem => Word::Unary,
        _ => Word::Sum,
    }
}

fn mark_of_operator(operator: BinaryOperator) -> Mark
    ensures { result ≡ operator_mark operator }
{
    match operator {
        BinaryOperator::Add => Mark::Plus,
        BinaryOperator::Sub => Mark::Minus,
        BinaryOperator::Mul => Mark::Times,
        BinaryOperator::Div => Mark::Slash,
        BinaryOperator::Rem => Mark::Percent,
        BinaryOperator::Equal => Mark::Equal,
        BinaryOperator::NotEqual => Mark::NotEqual,
        BinaryOperator::Less => Mark::Less,
        BinaryOperator::LessEqual => Mark::LessEqual,
    }
}

fn mark_of_prefix(prefix: Prefix) -> Mark
    ensures { result ≡ prefix_mark prefix }
{
    match prefix {
        Prefix::Negate => Mark::Minus,
        Prefix::Get => Mark::Get,
        Prefix::Put => Mark::Put,
    }
}

/// Adds a mark to the tokens. On an error, which is want of memory, none is added.
pub(crate) fn add_mark<'p>(tokens: &mut Vec<Token<'p>>, sign: Mark) -> Result<(), AllocError>
    ensures { OnOk result (Writes tokens.old.items tokens.new.items (λ rest. mark sign ∷ rest)) }
{
    tokens.push(Token::Mark(sign))?;
    Ok(())
}

/// Adds a name's text to the tokens, without its place. On an error, which is want of memory, none is added.
pub(crate) fn add_name<'p>(tokens: &mut Vec<Token<'p>>, word: &'p Name) -> Result<(), AllocError>
    ensures { OnOk result (Writes tokens.old.items tokens.new.items (λ rest. name (string_bytes word.entry.now.text) ∷ rest)) }
{
    tokens.push(Token::Name(word.text.as_str()))?;
    Ok(())
}

/// Adds a number to the tokens. On an error, which is want of memory, none is added.
pub(crate) fn add_number<'p>(tokens: &mut Vec<Token<'p>>, value: u64) -> Result<(), AllocError>
    ensures { OnOk result (Writes tokens.old.items tokens.new.items (λ rest. number value ∷ rest)) }
{
    tokens.push(Token::Int(value))?;
    Ok(())
}

/// Adds the tokens of a type. After an error, which is want of memory, a beginning of them may be there.
pub(crate) fn add_type<'p>(
    tokens: &mut Vec<Token<'p>>,
    kind: &'p ValueType,
) -> Result<(), AllocError>
    ensures { OnOk result (Writes tokens.old.items tokens.new.items (λ rest. kind_before (type_of kind.entry.now) rest)) }
{
    match kind {
        ValueType::Int => {
            add_mark(tokens, Mark::Int)?;
            Ok(())
        }
        ValueType::List(item) => {
            add_mark(tokens, Mark::OpenBracket)?;
            add_type(tokens, item)?;
            add_mark(tokens, Mark::CloseBracket)?;
            Ok(())
        }
        ValueType::Ref(item) => {
            add_mark(tokens, Mark::Ref)?;
            add_type(tokens, item)?;
            Ok(())
        }
    }
}

/// Adds the number of new runs in parentheses; nothing where none was written. After an error a beginning of that may be there.
pub(crate) fn add_retries<'p>(
    tokens: &mut Vec<Token<'p>>,
    retries: &'p Option<Retries>,
) -> Result<(), AllocError>
    ensures { OnOk result (Writes tokens.old.items tokens.new.items (λ rest. retries_before (retries_of retries.entry.now) rest)) }
{
    let Some(retries) = retries else {
        return Ok(());
    };
    add_mark(tokens, Mark::OpenParenthesis)?;
    add_number(tokens, retries.number)?;
    add_mark(tokens, Mark::CloseParenthesis)?;
    Ok(())
}

/// A list is not empty.
fn has_items(items: &[Expr]) -> bool
    ensures { result ≡ has_items (trees_of items.now) }
{
    let [_first, _others @ ..] = items else {
        return false;
    };
    true
}

/// An expression as that word: in parentheses where it is a looser one.
#[cycle(writing)]
fn add_as<'p>(
    tokens: &mut Vec<Token<'p>>,
    expression: &'p Expr,
    word: Word,
) -> Result<(), AllocError>
    ensures { OnOk result (Writes tokens.old.items tokens.new.items (λ rest. wanted_before word (written (tree_of expression.entry.now)) rest)) }
{
    if is_looser(word_of(&expression.kind), word) {
        add_mark(tokens, Mark::OpenParenthesis)?;
        add_bare(tokens, expression)?;
        add_mark(tokens, Mark::CloseParenthesis)?;
        return Ok(());
    }
    add_bare(tokens, expression)?;
    Ok(())
}

/// An expression without parentheses round it.
#[cycle(writing)]
fn add_bare<'p>(tokens: &mut Vec<Token<'p>>, expression: &'p Expr) -> Result<(), AllocError>
    ensures { OnOk result (Writes tokens.old.items tokens.new.items (λ rest. bare_before (written (tree_of expression.entry.now)) rest)) }
{
    match &expression.kind {
        ExprKind::Int(number) => {
            add_number(tokens, *number)?;
            Ok(())
        }
        ExprKind::Variable(name) => {
            add_name(tokens, name)?;
            Ok(())
        }
        ExprKind::Prefixed(prefix, operand) => {
            add_mark(tokens, mark_of_prefix(*prefix))?;
            add_as(tokens, operand, Word::Unary)?;
            Ok(())
        }
        ExprKind::Binary(operator, left, right) => {
            add_as(tokens, left, left_word(*operator))?;
            add_mark(tokens, mark_of_operator(*operator))?;
            add_as(tokens, right, right_word(*operator))?;
            Ok(())
        }
        ExprKind::Index(list, place) => {
            add_as(tokens, list, Word::Postfix)?;
            add_mark(tokens, Mark::OpenBracket)?;
            add_as(tokens, place, Word::Expression)?;
            add_mark(tokens, Mark::CloseBracket)?;
            Ok(())
        }
        ExprKind::List(items) => {
            if has_items(items) {
                add_mark(tokens, Mark::OpenBracket)?;
                add_items(tokens, items)?;
                add_mark(tokens, Mark::CloseBracket)?;
                return Ok(());
            }
            add_mark(tokens, Mark::Empty)?;
            add_mark(tokens, Mark::Int)?;
            Ok(())
        }
        ExprKind::Empty(kind) => {
            add_mark(tokens, Mark::Empty)?;
            add_type(tokens, kind)?;
            Ok(())
        }
        ExprKind::Call(name, arguments) => {
            add_call(tokens, name, arguments)?;
            Ok(())
        }
        ExprKind::Remote(retries, name, arguments) => {
            add_mark(tokens, Mark::Remote)?;
            add_retries(tokens, retries)?;
            add_call(tokens, name, arguments)?;
            Ok(())
        }
        ExprKind::Len(list) => {
            add_mark(tokens, Mark::Len)?;
            add_mark(tokens, Mark::OpenParenthesis)?;
            add_as(tokens, list, Word::Expression)?;
            add_mark(tokens, Mark::CloseParenthesis)?;
            Ok(())
        }
        ExprKind::Push(list, item) => {
            add_mark(tokens, Mark::Push)?;
            add_mark(tokens, Mark::OpenParenthesis)?;
            add_as(tokens, list, Word::Expression)?;
            add_mark(tokens, Mark::Comma)?;
            add_as(tokens, item, Word::Expression)?;
            add_mark(tokens, Mark::CloseParenthesis)?;
            Ok(())
        }
    }
}

/// Expressions with commas between.
#[cycle(writing)]
fn add_items<'p>(tokens: &mut Vec<Token<'p>>, items: &'p [Expr]) -> Result<(), AllocError>
    ensures { OnOk result (Writes tokens.old.items tokens.new.items (λ rest. arguments_before (written_arguments (trees_of items.entry.now)) rest)) }
{
    let [first, others @ ..] = items else {
        return Ok(());
    };
    add_as(tokens, first, Word::Expression)?;
    for item in others {
        add_mark(tokens, Mark::Comma)?;
        add_as(tokens, item, Word::Expression)?;
    }
    Ok(())
}

/// A function's name, and what it is called with in parentheses.
#[cycle(writing)]
pub(crate) fn add_call<'p>(
    tokens: &mut Vec<Token<'p>>,
    function: &'p Name,
    arguments: &'p [Expr],
) -> Result<(), AllocError>
    ensures { OnOk result (Writes tokens.old.items tokens.new.items (λ rest. call_before function.entry.now arguments.entry.now rest)) }
{
    add_name(tokens, function)?;
    add_mark(tokens, Mark::OpenParenthesis)?;
    add_items(tokens, arguments)?;
    add_mark(tokens, Mark::CloseParenthesis)?;
    Ok(())
}

/// Adds the tokens of an expression, in parentheses only where it would be read as another tree without them. After an error a beginning of
/// them may be there.
pub(crate) fn add_expression<'p>(
    tokens: &mut Vec<Token<'p>>,
    expression: &'p Expr,
) -> Result<(), AllocError>
    ensures { OnOk result (Writes tokens.old.items tokens.new.items (λ rest. expression_before (expression_of (tree_of expression.entry.now)) rest)) }
{
    add_as(tokens, expression, Word::Expression)?;
    Ok(())
}

/// Further expressions, each after a comma.
pub(crate) fn add_others<'p>(
    tokens: &mut Vec<Token<'p>>,
    others: &'p [Expr],
) -> Result<(), AllocError>
    ensures { OnOk result (Writes tokens.old.items tokens.new.items (λ rest. more_before (written_others (trees_of others.entry.now)) rest)) }
{
    for item in others {
        add_mark(tokens, Mark::Comma)?;
        add_expression(tokens, item)?;
    }
    Ok(())
}
