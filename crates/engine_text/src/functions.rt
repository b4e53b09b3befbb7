// How a script's functions are written in Python, each as one that takes its depth and its arguments.

ghost use Rattle.std.specs.Prelude.{◌≡◌, ◌++◌, OnOk, codes, map, string_bytes};
ghost use Rattle.std.specs.List.{flat_map};
ghost use Rattle.script_check.specs.Trees.{function_of, parameter_of};
ghost use Rattle.engine_text.specs.Functions.{function_head, function_text, parameter_text};

use crate::calls::{write_function_name, write_variable_name};
use crate::statements::write_block;
use script_check::{CheckedFunction, CheckedParameter};
use std::alloc::{AllocError, Global};

fn write_parameter(text: &mut String, parameter: &CheckedParameter) -> Result<(), AllocError>
    ensures { OnOk result (string_bytes text.new ≡ string_bytes text.old ++ parameter_text (parameter_of parameter.now)) }
{
    text.push_str(", ")?;
    write_variable_name(text, parameter.name.as_str())
}

fn write_parameters(text: &mut String, parameters: &[CheckedParameter]) -> Result<(), AllocError>
    ensures { OnOk result
        (string_bytes text.new ≡ string_bytes text.old ++ flat_map parameter_text (map parameter_of parameters.now)) }
{
    for parameter in parameters {
        write_parameter(text, parameter)?;
    }
    Ok(())
}

fn write_head(text: &mut String, name: &str) -> Result<(), AllocError>
    ensures { OnOk result (string_bytes text.new ≡ string_bytes text.old ++ function_head name.now) }
{
    text.push_str("\n\n@script\ndef ")?;
    write_function_name(text, name)?;
    text.push_str("(depth")?;
    Ok(())
}

/// Writes a function, with two empty lines before it.
#[tactic(auto, unfolding(crate::specs::Functions::function_text))]
pub(crate) fn write_function(
    alloc: Global,
    text: &mut String,
    function: &CheckedFunction,
) -> Result<(), AllocError>
    ensures { OnOk result (string_bytes text.new ≡ string_bytes text.old ++ function_text (function_of function.now)) }
{
    write_head(text, function.name.as_str())?;
    write_parameters(text, &function.parameters)?;
    text.push_str("):\n")?;
    write_block(alloc, text, "", &function.body.statements)
}
