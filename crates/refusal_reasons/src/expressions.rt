// Types of expressions, in the order in which the checker looks at them. It finds each fault that the checker finds, but for numbers that no parsed
// script has.

use crate::kind::Kind;
use crate::scope::{Scene, callee, few_retries, variable_kind};
use crate::stop::Stop;
use crate::wanted::{Wanted, met};
use script_syntax::{Expr, ExprKind, Parameter, Prefix};

/// The type of an expression, in which so many others stand inside one another at most.
#[cycle(kinds)]
pub(crate) fn kind_of(scene: Scene<'_>, expr: &Expr, levels: u32) -> Result<Kind, Stop> {
    if levels == 0 {
        return Err(Stop::Unsure);
    }
    let inner = levels - 1;
    let alloc = scene.alloc;
    match &expr.kind {
        ExprKind::Int(_) => Ok(Kind::number(alloc)),
        ExprKind::Variable(name) => variable_kind(scene, name),
        ExprKind::Prefixed(prefix, operand) => prefixed(scene, *prefix, operand, inner),
        ExprKind::Binary(_, left, right) => {
            let purpose = "as an operand";
            let _ = kind_met(scene, left, Wanted::Number, purpose, inner)?;
            kind_met(scene, right, Wanted::Number, purpose, inner)
        }
        ExprKind::Index(list, index) => {
            let kind = kind_met(scene, list, Wanted::List, "since an index follows", inner)?;
            let _ = kind_met(scene, index, Wanted::Number, "as an index", inner)?;
            Ok(kind.inner())
        }
        ExprKind::List(items) => list_kind(scene, items, inner),
        ExprKind::Empty(items) => Ok(Kind::of(alloc, items)?.listed()?),
        ExprKind::Call(name, arguments) => {
            let function = callee(scene, name, 1, arguments.len())?;
            check_arguments(scene, &function.parameters, arguments, inner)?;
            Ok(Kind::of(alloc, &function.result)?)
        }
        ExprKind::Remote(retries, name, arguments) => {
            few_retries(scene, *retries)?;
            let function = callee(scene, name, 1, arguments.len())?;
            check_marked(scene, &function.parameters, arguments, inner)?;
            Ok(Kind::of(alloc, &function.result)?.referred()?)
        }
        ExprKind::Len(list) => {
            let _ = kind_met(scene, list, Wanted::List, "for len", inner)?;
            Ok(Kind::number(alloc))
        }
        ExprKind::Push(list, item) => {
            let list = kind_met(scene, list, Wanted::List, "for push", inner)?;
            let kind = list.inner();
            let wanted = Wanted::Exactly(kind.copy()?);
            let _ = kind_met(scene, item, wanted, "as an item of that list", inner)?;
            Ok(kind.listed()?)
        }
    }
}

/// The type of an expression, where it is as it is wanted for that.
#[cycle(kinds)]
pub(crate) fn kind_met(
    scene: Scene<'_>,
    expr: &Expr,
    wanted: Wanted,
    purpose: &'static str,
    levels: u32,
) -> Result<Kind, Stop> {
    let found = kind_of(scene, expr, levels)?;
    met(scene.alloc, found, wanted, purpose, expr.span)
}

#[cycle(kinds)]
fn prefixed(scene: Scene<'_>, prefix: Prefix, operand: &Expr, levels: u32) -> Result<Kind, Stop> {
    match prefix {
        Prefix::Negate => kind_met(scene, operand, Wanted::Number, "as an operand", levels),
        Prefix::Get => {
            let kind = kind_met(scene, operand, Wanted::Reference, "for get", levels)?;
            Ok(kind.inner())
        }
        Prefix::Put => Ok(kind_of(scene, operand, levels)?.referred()?),
    }
}

/// The type of a list of these items.
#[cycle(kinds)]
fn list_kind(scene: Scene<'_>, items: &[Expr], levels: u32) -> Result<Kind, Stop> {
    let [first, rest @ ..] = items else {
        return Err(Stop::Unsure);
    };
    let kind = kind_of(scene, first, levels)?;
    for item in rest {
        let wanted = Wanted::Exactly(kind.copy()?);
        let found = kind_of(scene, item, levels)?;
        let _ = met(scene.alloc, found, wanted, "as the first item", item.span)?;
    }
    Ok(kind.listed()?)
}

/// That each argument is of its parameter's type.
#[cycle(kinds)]
pub(crate) fn check_arguments(
    scene: Scene<'_>,
    parameters: &[Parameter],
    arguments: &[Expr],
    levels: u32,
) -> Result<(), Stop> {
    for (i, argument) in arguments.iter().enumerate() {
        let Some(parameter) = parameters.get(i) else {
            return Err(Stop::Unsure);
        };
        let wanted = Wanted::Exactly(Kind::of(scene.alloc, &parameter.kind)?);
        let found = kind_of(scene, argument, levels)?;
        let _ = met(scene.alloc, found, wanted, "as an argument", argument.span)?;
    }
    Ok(())
}

/// That each argument is of its parameter's type, or a reference to that.
#[cycle(kinds)]
pub(crate) fn check_marked(
    scene: Scene<'_>,
    parameters: &[Parameter],
    arguments: &[Expr],
    levels: u32,
) -> Result<(), Stop> {
    for (i, argument) in arguments.iter().enumerate() {
        let Some(parameter) = parameters.get(i) else {
            return Err(Stop::Unsure);
        };
        let wanted = Wanted::OrReference(Kind::of(scene.alloc, &parameter.kind)?);
        let found = kind_of(scene, argument, levels)?;
        let purpose = "as an argument of a remote call";
        let _ = met(scene.alloc, found, wanted, purpose, argument.span)?;
    }
    Ok(())
}
