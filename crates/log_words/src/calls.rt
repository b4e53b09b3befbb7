// Births, written as the language writes them.

ghost use Rattle.std.specs.Prelude.{◌≡◌, ◌++◌, [], OnErr, OnOk, map, string_bytes};
ghost use Rattle.std.specs.List.{flat_map};
ghost use Rattle.task_spec.specs.Births.{argument_of, birth_of};
ghost use Rattle.log_words.specs.Calls.{mark_text, argument_text, other_text, arguments_text, call_text, birth_text};

use crate::contents::{Contents, write_value};
use report::or_no_text;
use std::alloc::AllocError;
use task_spec::{Argument, Birth};

/// Writes `get ` before an argument that is dereferenced.
fn write_mark(text: &mut String, is_dereferenced: bool) -> Result<(), AllocError>
    ensures { OnOk result (string_bytes text.new ≡ string_bytes text.old ++ mark_text is_dereferenced) }
{
    if is_dereferenced {
        return text.push_str("get ");
    }
    Ok(())
}

fn write_argument(
    text: &mut String,
    contents: Contents,
    argument: &Argument,
) -> Result<(), AllocError>
    ensures { OnOk result (string_bytes text.new ≡ string_bytes text.old ++ argument_text contents (argument_of argument.now)) }
{
    write_mark(text, argument.is_dereferenced)?;
    write_value(text, contents, &argument.value)
}

/// Writes the arguments behind the first.
fn write_others(
    text: &mut String,
    contents: Contents,
    arguments: &[Argument],
) -> Result<(), AllocError>
    ensures { OnOk result (string_bytes text.new ≡ string_bytes text.old ++ flat_map (other_text contents) (map argument_of arguments.now)) }
{
    for argument in arguments {
        text.push_str(", ")?;
        write_argument(text, contents, argument)?;
    }
    Ok(())
}

fn write_arguments(
    text: &mut String,
    contents: Contents,
    arguments: &[Argument],
) -> Result<(), AllocError>
    ensures { OnOk result (string_bytes text.new ≡ string_bytes text.old ++ arguments_text contents (map argument_of arguments.now)) }
{
    let [first, others @ ..] = arguments else {
        return Ok(());
    };
    write_argument(text, contents, first)?;
    write_others(text, contents, others)
}

/// Writes a call, such as `inc(get o1.1, 5)`: `get` stands before an argument that the task's worker dereferences before
/// the body. An error is want of memory, and then nothing is left of the text.
pub fn write_call(
    text: &mut String,
    contents: Contents,
    function: &str,
    arguments: &[Argument],
) -> Result<(), AllocError>
    ensures done { OnOk result (string_bytes text.new ≡ string_bytes text.old ++ call_text contents function.now (map argument_of arguments.now)) }
    ensures err { OnErr result (string_bytes text.new ≡ []) }
{
    or_no_text(text.push_str(function), text)?;
    or_no_text(text.push_str("("), text)?;
    or_no_text(write_arguments(text, contents, arguments), text)?;
    or_no_text(text.push_str(")"), text)
}

/// Writes what makes an object, such as `put [1, 2]` or `remote(3) sq(7)`, where 3 is how many further runs the task has. An error is want of
/// memory, and then nothing is left of the text.
pub fn write_birth(text: &mut String, contents: Contents, birth: &Birth) -> Result<(), AllocError>
    ensures done { OnOk result (string_bytes text.new ≡ string_bytes text.old ++ birth_text contents (birth_of birth.now)) }
    ensures err { OnErr result (string_bytes text.new ≡ []) }
{
    match birth {
        Birth::Put(value) => {
            or_no_text(text.push_str("put "), text)?;
            write_value(text, contents, value)
        }
        Birth::Task {
            function,
            arguments,
            retries,
            ..
        } => {
            or_no_text(write!(text, "remote({retries}) "), text)?;
            write_call(text, contents, function.as_str(), arguments.as_slice())
        }
    }
}
