// The names of a script, and what is told where one is at fault.

use crate::kind::Kind;
use crate::near::{Nearness, how_near};
use crate::stop::{Stop, stop_at};
use raysim_explain::place_of;
use script_syntax::{Function, Name, Retries, Span};
use std::alloc::{AllocError, Global};

/// A variable, where its name was given, and its type.
#[derive(Drop)]
pub(crate) struct Variable {
    pub(crate) name: String,
    /// Where its name was given.
    pub(crate) span: Span,
    pub(crate) kind: Kind,
}

/// What an expression is looked at in: the script's text, its functions, and the variables in scope.
#[derive(Clone, Copy)]
pub(crate) struct Scene<'s> {
    pub(crate) alloc: Global,
    pub(crate) text: &'s [u8],
    pub(crate) functions: &'s [Function],
    pub(crate) scope: &'s [Variable],
}

fn look_up<'s>(scope: &'s [Variable], name: &str) -> Option<&'s Variable> {
    for variable in scope {
        if variable.name.as_str() == name {
            return Some(variable);
        }
    }
    None
}

/// The first function of exactly that name, if there is one.
pub(crate) fn find<'s>(functions: &'s [Function], name: &str) -> Option<&'s Function> {
    for function in functions {
        if function.name.text.as_str() == name {
            return Some(function);
        }
    }
    None
}

/// The variable in scope whose name is one edit away, else the last that is two away.
fn near_variable<'s>(scope: &'s [Variable], name: &str) -> Option<&'s str> {
    let mut found = None;
    for variable in scope {
        match how_near(variable.name.as_bytes(), name.as_bytes()) {
            Some(Nearness::OneEdit) => return Some(variable.name.as_str()),
            Some(Nearness::TwoEdits) => found = Some(variable.name.as_str()),
            None => {}
        }
    }
    found
}

/// The function that may be called and whose name is near.
fn near_function<'s>(functions: &'s [Function], name: &str) -> Option<&'s str> {
    let mut found = None;
    for function in functions {
        let other = function.name.text.as_str();
        if other != "main" {
            match how_near(other.as_bytes(), name.as_bytes()) {
                Some(Nearness::OneEdit) => return Some(other),
                Some(Nearness::TwoEdits) => found = Some(other),
                None => {}
            }
        }
    }
    found
}

/// What is told of a variable that is not in scope.
fn told_variable(scene: Scene<'_>, name: &Name) -> Result<String, AllocError> {
    let alloc = scene.alloc;
    if let Some(near) = near_variable(scene.scope, name.text.as_str()) {
        return format!(in alloc; "    near: {near}");
    }
    if find(scene.functions, name.text.as_str()).is_some() {
        return format!(in alloc; "    found: the name of a function, and no call of it");
    }
    Ok(String::new(alloc))
}

/// What is told of a function that can't be called.
fn told_function(scene: Scene<'_>, name: &Name) -> Result<String, AllocError> {
    let alloc = scene.alloc;
    if name.text.as_str() == "main" {
        return format!(in alloc; "    found: a call of main, which is called by nothing");
    }
    if let Some(near) = near_function(scene.functions, name.text.as_str()) {
        return format!(in alloc; "    near: {near}");
    }
    if look_up(scene.scope, name.text.as_str()).is_some() {
        return format!(in alloc; "    found: the name of a variable, in a call");
    }
    Ok(String::new(alloc))
}

/// The type of the variable of that name; where none is in scope, the fault 10 at the name, with what is near.
pub(crate) fn variable_kind(scene: Scene<'_>, name: &Name) -> Result<Kind, Stop> {
    if let Some(variable) = look_up(scene.scope, name.text.as_str()) {
        return Ok(variable.kind.copy()?);
    }
    let told = told_variable(scene, name)?;
    Err(stop_at(10, name.span, told))
}

fn plural(count: usize) -> &'static str {
    if count == 1 { "" } else { "s" }
}

/// The function that a call names, where it has as many results as the call is for, and takes so many arguments.
pub(crate) fn callee<'s>(
    scene: Scene<'s>,
    name: &Name,
    wanted: usize,
    given: usize,
) -> Result<&'s Function, Stop> {
    let alloc = scene.alloc;
    let found = match name.text.as_str() {
        "main" => None,
        text => find(scene.functions, text),
    };
    let Some(function) = found else {
        let told = told_function(scene, name)?;
        return Err(stop_at(10, name.span, told));
    };
    let results = function.others.len().saturating_add(1);
    if results != wanted {
        return Err(counted(alloc, "result", wanted, results, name.span));
    }
    let taken = function.parameters.len();
    if taken == given {
        return Ok(function);
    }
    let (some, others) = (plural(taken), plural(given));
    let told = format!(in alloc;
        "    expected: {taken} argument{some}\n    found: {given} argument{others}"
    )?;
    Err(stop_at(12, name.span, told))
}

/// The stop at a wrong number of results, or of values for them.
pub(crate) fn counted(
    alloc: Global,
    what: &'static str,
    wanted: usize,
    found: usize,
    span: Span,
) -> Stop {
    let (some, others) = (plural(wanted), plural(found));
    match format!(in alloc;
        "    expected: {wanted} {what}{some}\n    found: {found} {what}{others}"
    ) {
        Ok(told) => stop_at(18, span, told),
        Err(_) => Stop::Unsure,
    }
}

/// That a remote call asks for no more than 10 retries.
pub(crate) fn few_retries(scene: Scene<'_>, written: Option<Retries>) -> Result<(), Stop> {
    let alloc = scene.alloc;
    match written {
        Some(retries) if retries.number > 10 => {
            let number = retries.number;
            let told = format!(in alloc; "    expected: 10 at most\n    found: {number}")?;
            Err(stop_at(16, retries.span, told))
        }
        _ => Ok(()),
    }
}

/// The stop at a name that was given before, there.
pub(crate) fn twice(alloc: Global, text: &[u8], name: &Name, first: Span) -> Stop {
    let place = place_of(text, first.start);
    let (line, column) = (place.line, place.column);
    match format!(in alloc; "    first: {line}:{column}") {
        Ok(told) => stop_at(17, name.span, told),
        Err(_) => Stop::Unsure,
    }
}

/// That a name may be given.
pub(crate) fn fresh(scene: Scene<'_>, name: &Name) -> Result<(), Stop> {
    match look_up(scene.scope, name.text.as_str()) {
        Some(variable) => Err(twice(scene.alloc, scene.text, name, variable.span)),
        None => Ok(()),
    }
}

/// Puts a variable into scope.
pub(crate) fn declare(scope: &mut Vec<Variable>, name: &Name, kind: Kind) -> Result<(), Stop> {
    let text = name.text.clone()?;
    scope.push(Variable {
        name: text,
        span: name.span,
        kind,
    })?;
    Ok(())
}
