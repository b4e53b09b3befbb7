// Expressions with their types, and what operators make of them.

ghost use Rattle.std.specs.Prelude.{◌≡◌, IfOk, IfErr, IsTrue, None, Some, string_bytes};
ghost use Rattle.meaning.specs.Syntax.{Number as ANumber, ListKind, Binary, Empty};
ghost use Rattle.script_check.specs.Refusals.{is_refusal};
ghost use Rattle.script_check.specs.Trees.{kind_of, expr_of, operator_of};
ghost use Rattle.script_check.specs.Scopes.{context_of};
ghost use Rattle.script_check.specs.Rules.{operator_named};
ghost use Rattle.script_check.specs.Typings.{typing_of};
ghost use Rattle.script_check.specs.Inference.{of_kind, items_of, referent_of, prefixed, int_typing, variable_typing, length_typing};

use crate::error::CheckError;
use crate::scope::{Variable, look_up};
use crate::tree::{CheckedExpr, Operator, UnaryOperator};
use crate::types::{copy_type, is_same};
use script_syntax::{BinaryOperator, Name, Prefix, Span, ValueType};
use std::alloc::{AllocError, Global};

/// An expression that is allowed, with its type.
#[derive(Drop)]
pub(crate) struct Typing {
    pub expr: CheckedExpr,
    /// The type of its value.
    pub kind: ValueType,
}

impl Typing {
    /// The expression, if it is of that type.
    pub(crate) fn of_kind(self, kind: &ValueType, span: Span) -> Result<CheckedExpr, CheckError>
        ensures value { IfOk result (λ c. of_kind (kind_of kind.now) (typing_of self) ≡ Some (expr_of c)) }
        ensures refused { IfErr result (λ e. of_kind (kind_of kind.now) (typing_of self) ≡ None) }
    {
        if !is_same(&self.kind, kind) {
            return Err(CheckError::WrongType(span));
        }
        Ok(self.expr)
    }

    /// The expression, if it is a number.
    pub(crate) fn number(self, span: Span) -> Result<CheckedExpr, CheckError>
        ensures value { IfOk result (λ c. of_kind ANumber (typing_of self) ≡ Some (expr_of c)) }
        ensures refused { IfErr result (λ e. of_kind ANumber (typing_of self) ≡ None) }
    {
        self.of_kind(&ValueType::Int, span)
    }
}

/// The type of a list's items.
pub(crate) fn items_of(kind: ValueType, span: Span) -> Result<ValueType, CheckError>
    ensures value { IfOk result (λ t. items_of (kind_of kind) ≡ Some (kind_of t)) }
    ensures refused { IfErr result (λ e. items_of (kind_of kind) ≡ None) }
{
    match kind {
        ValueType::List(items) => Ok(Box::into_inner(items)),
        _ => Err(CheckError::WrongType(span)),
    }
}

/// The type of what a reference leads to.
pub(crate) fn referent_of(kind: ValueType, span: Span) -> Result<ValueType, CheckError>
    ensures value { IfOk result (λ t. referent_of (kind_of kind) ≡ Some (kind_of t)) }
    ensures refused { IfErr result (λ e. referent_of (kind_of kind) ≡ None) }
{
    match kind {
        ValueType::Ref(inner) => Ok(Box::into_inner(inner)),
        _ => Err(CheckError::WrongType(span)),
    }
}

/// The operator of a checked tree.
pub(crate) fn operator(written: BinaryOperator) -> Operator
    ensures { operator_of result ≡ operator_named written }
{
    match written {
        BinaryOperator::Add => Operator::Add,
        BinaryOperator::Sub => Operator::Sub,
        BinaryOperator::Mul => Operator::Mul,
        BinaryOperator::Div => Operator::Div,
        BinaryOperator::Rem => Operator::Rem,
        BinaryOperator::Equal => Operator::Equal,
        BinaryOperator::NotEqual => Operator::NotEqual,
        BinaryOperator::Less => Operator::Less,
        BinaryOperator::LessEqual => Operator::LessEqual,
    }
}

/// A number, which has to fit an int.
pub(crate) fn check_int(n: u64, span: Span) -> Result<Typing, CheckError>
    ensures value { IfOk result (λ x. int_typing n ≡ Some (typing_of x)) }
    ensures refused { IfErr result (λ e. int_typing n ≡ None) }
{
    if n > i64::MAX as u64 {
        return Err(CheckError::WrongType(span));
    }
    Ok(Typing {
        expr: CheckedExpr::Int(n as i64),
        kind: ValueType::Int,
    })
}

/// A variable, which has to be in scope.
pub(crate) fn check_variable(
    alloc: Global,
    scope: &[Variable],
    name: &Name,
) -> Result<Typing, CheckError>
    ensures value { IfOk result (λ x. variable_typing (context_of scope.now) (string_bytes name.now.text) ≡ Some (typing_of x)) }
    ensures refused { IfErr result (λ e. IsTrue (is_refusal e) → variable_typing (context_of scope.now) (string_bytes name.now.text) ≡ None) }
{
    let Some(kind) = look_up(scope, name.text.as_str()) else {
        return Err(CheckError::UnknownName(name.span));
    };
    let kind = copy_type(alloc, kind)?;
    let expr = CheckedExpr::Variable(name.text.clone()?);
    Ok(Typing { expr, kind })
}

/// What a prefix makes of its operand.
pub(crate) fn prefixed(
    alloc: Global,
    prefix: Prefix,
    operand: Typing,
    span: Span,
) -> Result<Typing, CheckError>
    ensures value { IfOk result (λ x. prefixed prefix (typing_of operand) ≡ Some (typing_of x)) }
    ensures refused { IfErr result (λ e. IsTrue (is_refusal e) → prefixed prefix (typing_of operand) ≡ None) }
{
    match prefix {
        Prefix::Negate => {
            let operand = Box::new(alloc, operand.number(span)?)?;
            let expr = CheckedExpr::Unary(UnaryOperator::Negate, operand);
            let kind = ValueType::Int;
            Ok(Typing { expr, kind })
        }
        Prefix::Get => {
            let kind = referent_of(operand.kind, span)?;
            let found = copy_type(alloc, &kind)?;
            let expr = CheckedExpr::Get(found, Box::new(alloc, operand.expr)?);
            Ok(Typing { expr, kind })
        }
        Prefix::Put => {
            let kind = ValueType::Ref(Box::new(alloc, operand.kind)?);
            let expr = CheckedExpr::Put(Box::new(alloc, operand.expr)?);
            Ok(Typing { expr, kind })
        }
    }
}

/// `len` of that list, which is a number; refused with 11 at the span where it is no list.
pub(crate) fn length(alloc: Global, list: Typing, span: Span) -> Result<Typing, CheckError>
    ensures value { IfOk result (λ x. length_typing (typing_of list) ≡ Some (typing_of x)) }
    ensures refused { IfErr result (λ e. IsTrue (is_refusal e) → length_typing (typing_of list) ≡ None) }
{
    let _items = items_of(list.kind, span)?;
    let expr = CheckedExpr::Unary(UnaryOperator::Len, Box::new(alloc, list.expr)?);
    let kind = ValueType::Int;
    Ok(Typing { expr, kind })
}

/// Two operands under an operator.
pub(crate) fn binary(
    alloc: Global,
    operator: Operator,
    left: CheckedExpr,
    right: CheckedExpr,
) -> Result<CheckedExpr, AllocError>
    ensures { IfOk result (λ e. expr_of e ≡ Binary (operator_of operator) (expr_of left) (expr_of right)) }
{
    let left = Box::new(alloc, left)?;
    let right = Box::new(alloc, right)?;
    Ok(CheckedExpr::Binary(operator, left, right))
}

/// The empty list of items of a type.
pub(crate) fn empty(alloc: Global, items: &ValueType) -> Result<Typing, CheckError>
    ensures value { IfOk result (λ x. typing_of x ≡ record { expr = Empty (kind_of items.now); kind = ListKind (kind_of items.now) }) }
    ensures refused { IfErr result (λ e. e ≡ CheckError.NoMemory) }
{
    let expr = CheckedExpr::Empty(copy_type(alloc, items)?);
    let kind = ValueType::List(Box::new(alloc, copy_type(alloc, items)?)?);
    Ok(Typing { expr, kind })
}
