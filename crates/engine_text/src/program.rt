// A script as a whole program.

ghost use Rattle.std.specs.Prelude.{◌≡◌, ◌++◌, IfOk, OnOk, map, string_bytes};
ghost use Rattle.std.specs.List.{flat_map};
ghost use Rattle.script_check.specs.Trees.{function_of, script_of};
ghost use Rattle.engine_text.specs.Functions.{function_text};
ghost use Rattle.engine_text.specs.Program.{calls_of, engine_text};

use crate::dask::DASK;
use crate::functions::write_function;
use crate::language::{FOOT, LANGUAGE};
use crate::ray::RAY;
use script_check::{Checked, CheckedFunction};
use std::alloc::{AllocError, Global};

/// An engine that runs tasks on many machines.
#[derive(Clone, Copy, PartialEq, Eq, Debug)]
pub enum Engine {
    /// Dask's distributed scheduler.
    Dask,
    /// Ray, with its tasks and its object store.
    Ray,
}

/// The Python that makes remote calls on the engine, which stands behind the common head.
fn calls_of(engine: Engine) -> &'static str
    ensures { result.now ≡ calls_of engine }
{
    match engine {
        Engine::Dask => DASK,
        Engine::Ray => RAY,
    }
}

fn write_functions(
    alloc: Global,
    text: &mut String,
    functions: &[CheckedFunction],
) -> Result<(), AllocError>
    ensures { OnOk result
        (string_bytes text.new ≡ string_bytes text.old ++ flat_map function_text (map function_of functions.now)) }
{
    for function in functions {
        write_function(alloc, text, function)?;
    }
    Ok(())
}

/// A Python program that runs a checked script on an engine: the calls of the engine, what the language's own operations come
/// to, and a Python function for each of the script's functions, in the order of its text. docs/engines.md says how it is run, what it
/// prints, and what its engine promises.
///
/// The only error is want of memory.
pub fn engine_text(alloc: Global, engine: Engine, script: &Checked) -> Result<String, AllocError>
    ensures { IfOk result (λ text. string_bytes text ≡ engine_text engine (script_of script.now)) }
{
    let mut text = String::new(alloc);
    text.push_str(calls_of(engine))?;
    text.push_str(LANGUAGE)?;
    write_functions(alloc, &mut text, script.functions())?;
    text.push_str(FOOT)?;
    Ok(text)
}
