// Tasks that no function takes: the script has none of that name, or it takes another number of arguments. A checked script makes none.

ghost use Rattle.std.specs.Prelude.{◌≡◌, ◌∷◌, ℕ, IfOk, IfErr, OnOk, List, Some, drop, length, map, true};
ghost use Rattle.meaning.specs.Values as meant;
ghost use Rattle.meaning.specs.Meaning.{find, parameters_of};
ghost use Rattle.meaning.specs.Runs.{Stop};
ghost use Rattle.script_check.specs.Trees.{script_of};
ghost use Rattle.frames.specs.Values.{outcome_of};
ghost use Rattle.frames.specs.Machines.{argument_of, is_stop};
ghost use Rattle.frames.specs.Tasks.{GivesEnd, matched, mismatch_end, mismatch_stop, stopped_by};
ghost use Rattle.frames.specs.Endings.{end_of};

use crate::ending::End;
use crate::halt::{Halt, MarkedArgument};
use crate::value::Outcome;
use script_check::CheckedFunction;
use std::alloc::AllocError;

/// How many parameters a function has: none where the script doesn't have it.
fn parameter_count(script: &[CheckedFunction], name: &str) -> usize
    ensures { result ≡ length (parameters_of (find (script_of script.now) name.now)) }
{
    for function in script {
        if function.name.as_str() == name {
            return function.parameters.len();
        }
    }
    0
}

/// The arguments that have a parameter.
fn matched<'a>(
    script: &[CheckedFunction],
    name: &str,
    arguments: &'a [MarkedArgument],
) -> &'a [MarkedArgument]
    ensures { map argument_of result.now ≡ matched (script_of script.now) name.now (map argument_of arguments.now) }
{
    let count = parameter_count(script, name).min(arguments.len());
    &arguments[..count]
}

/// Gets an argument of a serial run, where it has a mark.
fn pass_known(argument: &MarkedArgument) -> Result<(), Halt>
    ensures goes { OnOk result ((args : List meant.Argument) → mismatch_end (argument_of argument.now ∷ args) ≡ mismatch_end args) }
    ensures halt { IfErr result (λ h. (args : List meant.Argument) → GivesEnd (mismatch_end (argument_of argument.now ∷ args)) h) }
{
    if !argument.is_dereferenced {
        return Ok(());
    }
    if !argument.value.is_reference() {
        return Err(Halt::Broken);
    }
    match argument.value.known() {
        Ok(_) => Ok(()),
        Err(halt) => Err(halt),
    }
}

/// Gets an argument of a run in pieces, where it has a mark. Gives how many answers are used then.
fn pass_answered(argument: &MarkedArgument, answers: &[Outcome], used: usize) -> Result<usize, Halt>
    ensures goes { IfOk result (λ n. (results : ℕ) (args : List meant.Argument) →
        mismatch_stop results (argument_of argument.now ∷ args) (map outcome_of (drop used answers.now))
        ≡ mismatch_stop results args (map outcome_of (drop n answers.now))) }
    ensures halt { IfErr result (λ h. (results : ℕ) (args : List meant.Argument) (s : Stop) → stopped_by results h ≡ Some s →
        mismatch_stop results (argument_of argument.now ∷ args) (map outcome_of (drop used answers.now)) ≡ s) }
    ensures ends { IfErr result (λ h. is_stop h ≡ true) }
{
    if !argument.is_dereferenced {
        return Ok(used);
    }
    if !argument.value.is_reference() {
        return Err(Halt::Broken);
    }
    if used >= answers.len() {
        return Err(Halt::Asks(argument.value.share()?, 0));
    }
    match answers[used].got() {
        Ok(_) => Ok(used + 1),
        Err(halt) => Err(halt),
    }
}

/// How such a task ends in a serial run.
pub(crate) fn end_mismatch(
    script: &[CheckedFunction],
    name: &str,
    arguments: &[MarkedArgument],
) -> Result<End, AllocError>
    ensures { IfOk result (λ e. mismatch_end (matched (script_of script.now) name.now (map argument_of arguments.now)) ≡ end_of e) }
{
    for argument in matched(script, name, arguments) {
        if let Err(halt) = pass_known(argument) {
            return End::of(halt);
        }
    }
    Ok(End::Broken)
}

/// Where such a task stops in pieces.
pub(crate) fn stop_mismatch(
    script: &[CheckedFunction],
    name: &str,
    arguments: &[MarkedArgument],
    answers: &[Outcome],
) -> Halt
    ensures stops { (results : ℕ) (s : Stop) → stopped_by results result ≡ Some s →
        mismatch_stop results (matched (script_of script.now) name.now (map argument_of arguments.now)) (map outcome_of answers.now) ≡ s }
    ensures ends { is_stop result ≡ true }
{
    let mut used = 0;
    for argument in matched(script, name, arguments) {
        match pass_answered(argument, answers, used) {
            Ok(count) => used = count,
            Err(halt) => return halt,
        }
    }
    Halt::Broken
}
