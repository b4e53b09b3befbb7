// Statements and functions, in the order in which the checker looks at them. Whether a body may end with no return isn't looked at: a script in which
// one may has no earlier fault, and of that one its name says all.

use crate::expressions::{check_arguments, check_marked, kind_met, kind_of};
use crate::kind::Kind;
use crate::scope::{
    Scene, Variable, callee, counted, declare, few_retries, find, fresh, twice, variable_kind,
};
use crate::stop::{Fault, Stop, stop_at};
use crate::wanted::Wanted;
use script_syntax::{Block, Expr, Function, Name, Retries, Span, Statement, ValueType, parse};
use std::alloc::Global;

/// How many expressions or statements stand inside one another at most: more than any script that is parsed has.
const MOST_LEVELS: u32 = 100_000;

/// What stays the same within a function.
#[derive(Clone, Copy)]
struct Within<'s> {
    alloc: Global,
    text: &'s [u8],
    functions: &'s [Function],
    function: &'s Function,
}

impl<'s> Within<'s> {
    fn scene(self, scope: &'s [Variable]) -> Scene<'s> {
        Scene {
            alloc: self.alloc,
            text: self.text,
            functions: self.functions,
            scope,
        }
    }
}

fn check_number(
    within: Within<'_>,
    scope: &[Variable],
    expr: &Expr,
    purpose: &'static str,
) -> Result<(), Stop> {
    let scene = within.scene(scope);
    let _ = kind_met(scene, expr, Wanted::Number, purpose, MOST_LEVELS)?;
    Ok(())
}

fn check_let(
    within: Within<'_>,
    scope: &mut Vec<Variable>,
    name: &Name,
    expr: &Expr,
) -> Result<(), Stop> {
    fresh(within.scene(scope), name)?;
    let kind = kind_of(within.scene(scope), expr, MOST_LEVELS)?;
    declare(scope, name, kind)
}

fn check_set(within: Within<'_>, scope: &[Variable], name: &Name, expr: &Expr) -> Result<(), Stop> {
    let scene = within.scene(scope);
    let wanted = Wanted::Exactly(variable_kind(scene, name)?);
    let _ = kind_met(scene, expr, wanted, "as the variable", MOST_LEVELS)?;
    Ok(())
}

fn check_print(
    within: Within<'_>,
    scope: &[Variable],
    span: Span,
    expr: &Expr,
) -> Result<(), Stop> {
    let alloc = within.alloc;
    if within.function.name.text.as_str() != "main" {
        let name = within.function.name.text.as_str();
        let told = format!(in alloc; "    found: a print in {name}")?;
        return Err(stop_at(14, span, told));
    }
    let scene = within.scene(scope);
    let purpose = "since it is printed";
    let _ = kind_met(scene, expr, Wanted::NoReference, purpose, MOST_LEVELS)?;
    Ok(())
}

/// That the names of a `let` may be given, each behind those before it.
fn check_names_given(
    within: Within<'_>,
    scope: &[Variable],
    first: &Name,
    others: &[Name],
) -> Result<(), Stop> {
    let scene = within.scene(scope);
    fresh(scene, first)?;
    for (i, name) in others.iter().enumerate() {
        fresh(scene, name)?;
        if name.text.as_str() == first.text.as_str() {
            return Err(twice(within.alloc, within.text, name, first.span));
        }
        for other in &others[..i] {
            if name.text.as_str() == other.text.as_str() {
                return Err(twice(within.alloc, within.text, name, other.span));
            }
        }
    }
    Ok(())
}

/// A plain call for so many results.
fn check_call(
    within: Within<'_>,
    scope: &[Variable],
    called: &Name,
    wanted: usize,
    arguments: &[Expr],
) -> Result<(), Stop> {
    let scene = within.scene(scope);
    let function = callee(scene, called, wanted, arguments.len())?;
    check_arguments(scene, &function.parameters, arguments, MOST_LEVELS)
}

fn check_let_call(
    within: Within<'_>,
    scope: &mut Vec<Variable>,
    name: &Name,
    others: &[Name],
    called: &Name,
    arguments: &[Expr],
) -> Result<(), Stop> {
    check_names_given(within, scope, name, others)?;
    let wanted = others.len().saturating_add(1);
    check_call(within, scope, called, wanted, arguments)?;
    let Some(function) = find(within.functions, called.text.as_str()) else {
        return Err(Stop::Unsure);
    };
    declare(scope, name, Kind::of(within.alloc, &function.result)?)?;
    for (i, other) in others.iter().enumerate() {
        let Some(result) = function.others.get(i) else {
            return Err(Stop::Unsure);
        };
        declare(scope, other, Kind::of(within.alloc, result)?)?;
    }
    Ok(())
}

/// A call as a task, for so many results.
fn check_remote(
    within: Within<'_>,
    scope: &[Variable],
    retries: Option<Retries>,
    called: &Name,
    wanted: usize,
    arguments: &[Expr],
) -> Result<(), Stop> {
    let scene = within.scene(scope);
    few_retries(scene, retries)?;
    let function = callee(scene, called, wanted, arguments.len())?;
    check_marked(scene, &function.parameters, arguments, MOST_LEVELS)
}

/// The names of a `let` of several, each a reference to a result of a call as a task.
fn check_let_remote(
    within: Within<'_>,
    scope: &mut Vec<Variable>,
    name: &Name,
    others: &[Name],
    retries: Option<Retries>,
    called: &Name,
    arguments: &[Expr],
) -> Result<(), Stop> {
    check_names_given(within, scope, name, others)?;
    let wanted = others.len().saturating_add(1);
    check_remote(within, scope, retries, called, wanted, arguments)?;
    let Some(function) = find(within.functions, called.text.as_str()) else {
        return Err(Stop::Unsure);
    };
    let alloc = within.alloc;
    declare(scope, name, Kind::of(alloc, &function.result)?.referred()?)?;
    for (i, other) in others.iter().enumerate() {
        let Some(result) = function.others.get(i) else {
            return Err(Stop::Unsure);
        };
        declare(scope, other, Kind::of(alloc, result)?.referred()?)?;
    }
    Ok(())
}

fn check_value(
    within: Within<'_>,
    scope: &[Variable],
    expr: &Expr,
    kind: &ValueType,
) -> Result<(), Stop> {
    let wanted = Wanted::Exactly(Kind::of(within.alloc, kind)?);
    let purpose = "as the function's result";
    let _ = kind_met(within.scene(scope), expr, wanted, purpose, MOST_LEVELS)?;
    Ok(())
}

fn check_return(
    within: Within<'_>,
    scope: &[Variable],
    span: Span,
    expr: &Expr,
    others: &[Expr],
) -> Result<(), Stop> {
    let kinds = &within.function.others;
    if others.len() != kinds.len() {
        let wanted = kinds.len().saturating_add(1);
        let found = others.len().saturating_add(1);
        return Err(counted(within.alloc, "value", wanted, found, span));
    }
    check_value(within, scope, expr, &within.function.result)?;
    for (i, value) in others.iter().enumerate() {
        check_value(within, scope, value, &kinds[i])?;
    }
    Ok(())
}

/// Looks at a statement, in which so many others stand inside one another at most.
#[cycle(statements)]
fn check_statement(
    within: Within<'_>,
    scope: &mut Vec<Variable>,
    statement: &Statement,
    levels: u32,
) -> Result<(), Stop> {
    if levels == 0 {
        return Err(Stop::Unsure);
    }
    let inner = levels - 1;
    match statement {
        Statement::Let(name, expr) => check_let(within, scope, name, expr),
        Statement::LetCall(name, others, called, arguments) => {
            check_let_call(within, scope, name, others, called, arguments)
        }
        Statement::LetRemote(name, others, retries, called, arguments) => {
            check_let_remote(within, scope, name, others, *retries, called, arguments)
        }
        Statement::Set(name, expr) => check_set(within, scope, name, expr),
        Statement::If(condition, first, second) => {
            check_number(within, scope, condition, "as a condition")?;
            check_block(within, scope, first, inner)?;
            match second {
                Some(block) => check_block(within, scope, block, inner),
                None => Ok(()),
            }
        }
        Statement::For(name, from, to, body) => {
            fresh(within.scene(scope), name)?;
            check_number(within, scope, from, "as a loop's bound")?;
            check_number(within, scope, to, "as a loop's bound")?;
            let outer = scope.len();
            declare(scope, name, Kind::number(within.alloc))?;
            check_block(within, scope, body, inner)?;
            scope.truncate(outer);
            Ok(())
        }
        Statement::Print(span, expr) => check_print(within, scope, *span, expr),
        Statement::Return(span, expr, others) => {
            check_return(within, scope, *span, expr, others)
        }
    }
}

/// Looks at the statements of a block, whose variables go out of scope at its end.
#[cycle(statements)]
fn check_block(
    within: Within<'_>,
    scope: &mut Vec<Variable>,
    block: &Block,
    levels: u32,
) -> Result<(), Stop> {
    let outer = scope.len();
    for statement in &block.statements {
        check_statement(within, scope, statement, levels)?;
    }
    scope.truncate(outer);
    Ok(())
}

fn check_function(within: Within<'_>) -> Result<(), Stop> {
    let function = within.function;
    let mut scope = Vec::new(within.alloc);
    for parameter in &function.parameters {
        fresh(within.scene(&scope), &parameter.name)?;
        let kind = Kind::of(within.alloc, &parameter.kind)?;
        declare(&mut scope, &parameter.name, kind)?;
    }
    check_block(within, &mut scope, &function.body, MOST_LEVELS)
}

/// That no function has the name of one before it.
fn check_names(alloc: Global, text: &[u8], functions: &[Function]) -> Result<(), Stop> {
    for (i, function) in functions.iter().enumerate() {
        if let Some(first) = find(&functions[..i], function.name.text.as_str()) {
            return Err(twice(alloc, text, &function.name, first.name.span));
        }
    }
    Ok(())
}

/// What is told where main isn't as it has to be.
fn main_fault(functions: &[Function]) -> Option<&'static str> {
    let Some(main) = find(functions, "main") else {
        return Some("no function is called main");
    };
    let ValueType::Int = main.result else {
        return Some("the result of main is not int");
    };
    if !main.parameters.is_empty() {
        return Some("main has parameters");
    }
    if !main.others.is_empty() {
        return Some("main has several results");
    }
    None
}

fn check_main(alloc: Global, functions: &[Function]) -> Result<(), Stop> {
    let Some(found) = main_fault(functions) else {
        return Ok(());
    };
    let told = format!(in alloc; "    expected: fn main() -> int\n    found: {found}")?;
    Err(stop_at(13, Span { start: 0, end: 0 }, told))
}

fn check_functions(alloc: Global, text: &[u8], functions: &[Function]) -> Result<(), Stop> {
    check_names(alloc, text, functions)?;
    check_main(alloc, functions)?;
    for function in functions {
        check_function(Within {
            alloc,
            text,
            functions,
            function,
        })?;
    }
    Ok(())
}

/// What is told of the fault of a script for which it is refused with this number, at these bytes, if anything is.
pub(crate) fn told_of_tree(alloc: Global, text: &[u8], code: u16, span: Span) -> Option<String> {
    let Ok(program) = parse(alloc, text) else {
        return None;
    };
    match check_functions(alloc, text, &program.functions) {
        Err(
            Stop::Fault(
                Fault {
                    code: found,
                    span: place,
                    told,
                },
            ),
        ) => {
            if found == code && place == span && !told.is_empty() {
                Some(told)
            } else {
                None
            }
        }
        _ => None,
    }
}
