// A run's values and the values of tasks.

ghost use Rattle.std.specs.Prelude.{◌≡◌, IfOk, IfErr, map};
ghost use Rattle.meaning.specs.Values as meant;
ghost use Rattle.values.specs.Values.{value_of as task_value, content_of};
ghost use Rattle.task_spec.specs.Births.{argument_of as task_argument, birth_of};
ghost use Rattle.frames.specs.Values.{value_of, outcome_of};
ghost use Rattle.frames.specs.Machines.{argument_of, made_of};
ghost use Rattle.evaluation.specs.TaskValues.{IsNamed, IsTaskValue, EachTaskValue, IsTaskOutcome, AreTaskArguments, IsTaskBirth, AreTaskBirths};

use frames::{Made, MarkedArgument, Outcome, Value, list};
use held::{Printed, SharedBirth, SmallList};
use ids::ObjectId;
use sequence::Seq;
use std::alloc::{AllocError, AllocFailed, Global};
use std::rc::Rc;
use task_spec::Birth;
use thiserror::Error;
use values::{Content, RunValue};

/// Why what a run came to is nothing that a task has. `From` is written by hand, since the causes that clauses tell apart have to pass through `?`.
#[derive(Clone, Copy, PartialEq, Eq, Debug, Drop, Error)]
pub(crate) enum ConversionError {
    /// An operand of the wrong kind ended it.
    #[error("an operand of the wrong kind")]
    Broken,
    /// A value has an outcome in it, or is no id where one is needed.
    #[error("an outcome in a value, or no id where one is needed")]
    HasOutcome,
    /// Memory ran out.
    #[error("refused 39: want of memory")]
    NoMemory,
}

impl From<AllocError> for ConversionError {
    ghost use Rattle.evaluation.specs.declared.convert.ConversionError.TheVariants.{NoMemory};

    ghost from_gives = { λ _ e. e ≡ NoMemory };

    fn from(_: AllocError) -> ConversionError {
        ConversionError::NoMemory
    }
}

impl<T: Drop> From<AllocFailed<T>> for ConversionError {
    ghost use Rattle.evaluation.specs.declared.convert.ConversionError.TheVariants.{NoMemory};

    ghost from_gives = { λ _ e. e ≡ NoMemory };

    fn from(_: AllocFailed<T>) -> ConversionError {
        ConversionError::NoMemory
    }
}

/// A task's value, as a run has it.
pub(crate) fn from_value(alloc: Global, value: &RunValue) -> Result<Value, AllocError>
    ensures { IfOk result (λ v. value_of v ≡ task_value value.now) }
{
    match value {
        RunValue::Int(number) => Ok(Value::Int(*number)),
        RunValue::Id(object) => Ok(Value::Id(Rc::new(alloc, *object)?)),
        RunValue::List(items) => {
            let mut values = Vec::new(alloc);
            for item in items {
                values.push(from_value(alloc, item)?)?;
            }
            Ok(list(alloc, values)?)
        }
    }
}

/// A content, as a run has it.
pub(crate) fn from_content(alloc: Global, content: &Content) -> Result<Outcome, AllocError>
    ensures { IfOk result (λ c. outcome_of c ≡ content_of content.now) }
{
    match content {
        Content::Value(value) => Ok(Outcome::Value(from_value(alloc, value)?)),
        Content::Trap(trap) => Ok(Outcome::Trap(*trap)),
    }
}

/// Contents, as a run has them.
pub(crate) fn from_contents(alloc: Global, contents: &[Content]) -> Result<Vec<Outcome>, AllocError>
    ensures { IfOk result (λ cs. map outcome_of cs.items ≡ map content_of contents.now) }
{
    let mut outcomes = Vec::with_capacity(alloc, contents.len())?;
    for content in contents {
        outcomes.push(from_content(alloc, content)?)?;
    }
    Ok(outcomes)
}

/// The arguments of a task, as a run has them.
pub(crate) fn from_arguments(
    alloc: Global,
    arguments: &[task_spec::Argument],
) -> Result<SmallList<MarkedArgument>, AllocError>
    ensures { IfOk result (λ args. map argument_of args ≡ map task_argument arguments.now) }
{
    let mut copies = SmallList::new(alloc);
    for argument in arguments {
        let value = from_value(alloc, &argument.value)?;
        copies.push(MarkedArgument {
            value,
            is_dereferenced: argument.is_dereferenced,
        })?;
    }
    Ok(copies)
}

/// The object whose id the reference is; `HasOutcome` for any other value.
pub(crate) fn named(reference: &Value) -> Result<ObjectId, ConversionError>
    ensures value { IfOk result (λ o. value_of reference.now ≡ meant.Named o) }
    ensures kind { IfErr result (λ e. e ≡ ConversionError.Broken → ⊥) }
    ensures plain { IfErr result (λ e. e ≡ ConversionError.HasOutcome → IsNamed (value_of reference.now) → ⊥) }
{
    match reference {
        Value::Id(object) => Ok(**object),
        Value::Int(_) => Err(ConversionError::HasOutcome),
        Value::List(_) => Err(ConversionError::HasOutcome),
        Value::Known(_) => Err(ConversionError::HasOutcome),
    }
}

/// A run's value, as a task has it.
pub(crate) fn to_value(alloc: Global, value: &Value) -> Result<RunValue, ConversionError>
    ensures value { IfOk result (λ v. task_value v ≡ value_of value.now) }
    ensures kind { IfErr result (λ e. e ≡ ConversionError.Broken → ⊥) }
    ensures plain { IfErr result (λ e. e ≡ ConversionError.HasOutcome → IsTaskValue (value_of value.now) → ⊥) }
{
    match value {
        Value::Int(number) => Ok(RunValue::Int(*number)),
        Value::Id(object) => Ok(RunValue::Id(**object)),
        Value::Known(_) => Err(ConversionError::HasOutcome),
        Value::List(items) => {
            let mut values = Vec::new(alloc);
            for item in &items.values {
                values.push(to_value(alloc, item)?)?;
            }
            Ok(RunValue::List(values))
        }
    }
}

/// A run's outcome, as a task has it.
pub(crate) fn to_content(alloc: Global, outcome: &Outcome) -> Result<Content, ConversionError>
    ensures value { IfOk result (λ c. content_of c ≡ outcome_of outcome.now) }
    ensures broken { IfErr result (λ e. e ≡ ConversionError.Broken → outcome_of outcome.now ≡ meant.Trapped meant.Broken) }
    ensures plain { IfErr result (λ e. e ≡ ConversionError.HasOutcome → IsTaskOutcome (outcome_of outcome.now) → ⊥) }
{
    match outcome {
        Outcome::Value(value) => match to_value(alloc, value) {
            Ok(value) => Ok(Content::Value(value)),
            Err(error) => Err(error),
        },
        Outcome::Trap(trap) => Ok(Content::Trap(*trap)),
        Outcome::Broken => Err(ConversionError::Broken),
    }
}

/// Values of a run, as a task has them.
pub(crate) fn to_values(alloc: Global, values: &[Value]) -> Result<Vec<RunValue>, ConversionError>
    ensures value { IfOk result (λ vs. map task_value vs.items ≡ map value_of values.now) }
    ensures kind { IfErr result (λ e. e ≡ ConversionError.Broken → ⊥) }
    ensures plain { IfErr result (λ e. e ≡ ConversionError.HasOutcome → EachTaskValue (map value_of values.now) → ⊥) }
{
    let mut copies = Vec::with_capacity(alloc, values.len())?;
    for value in values {
        copies.push(to_value(alloc, value)?)?;
    }
    Ok(copies)
}

/// The arguments of a remote call, as its task has them.
fn to_arguments(
    alloc: Global,
    arguments: &[MarkedArgument],
) -> Result<SmallList<task_spec::Argument>, ConversionError>
    ensures value { IfOk result (λ args. map task_argument args ≡ map argument_of arguments.now) }
    ensures kind { IfErr result (λ e. e ≡ ConversionError.Broken → ⊥) }
    ensures plain { IfErr result (λ e. e ≡ ConversionError.HasOutcome → AreTaskArguments (map argument_of arguments.now) → ⊥) }
{
    let mut copies = SmallList::new(alloc);
    for argument in arguments {
        let value = to_value(alloc, &argument.value)?;
        copies.push(task_spec::Argument {
            value,
            is_dereferenced: argument.is_dereferenced,
        })?;
    }
    Ok(copies)
}

/// What was printed, as tasks have it.
pub(crate) fn to_prints(alloc: Global, values: &[Value]) -> Result<Seq<Printed>, ConversionError>
    ensures value { IfOk result (λ vs. vs ≡ map value_of values.now) }
    ensures kind { IfErr result (λ e. e ≡ ConversionError.Broken → ⊥) }
    ensures plain { IfErr result (λ e. e ≡ ConversionError.HasOutcome → EachTaskValue (map value_of values.now) → ⊥) }
{
    let mut prints = Seq::new(alloc);
    prints.items.reserve(values.len())?;
    for value in values {
        let inner = to_value(alloc, value)?;
        prints.push(Printed { inner })?;
    }
    Ok(prints)
}

/// What makes objects, as a task has it. A task's name is moved.
fn to_birth(alloc: Global, made: Made) -> Result<SharedBirth, ConversionError>
    ensures value { IfOk result (λ b. b ≡ made_of made) }
    ensures kind { IfErr result (λ e. e ≡ ConversionError.Broken → ⊥) }
    ensures plain { IfErr result (λ e. e ≡ ConversionError.HasOutcome → IsTaskBirth (made_of made) → ⊥) }
{
    match made {
        Made::Put(value) => {
            let value = to_value(alloc, &value)?;
            Ok(SharedBirth::new(alloc, Birth::Put(value))?)
        }
        Made::Task {
            function,
            arguments,
            depth,
            retries,
            others,
        } => {
            let arguments = to_arguments(alloc, arguments.as_slice())?;
            Ok(SharedBirth::new(
                alloc,
                Birth::Task {
                    function,
                    arguments,
                    depth,
                    retries,
                    others,
                },
            )?)
        }
    }
}

/// What was borne, as tasks have it.
pub(crate) fn to_births(
    alloc: Global,
    births: Vec<Made>,
) -> Result<Seq<SharedBirth>, ConversionError>
    ensures value { IfOk result (λ bs. bs ≡ map made_of births.items) }
    ensures kind { IfErr result (λ e. e ≡ ConversionError.Broken → ⊥) }
    ensures plain { IfErr result (λ e. e ≡ ConversionError.HasOutcome → AreTaskBirths (map made_of births.items) → ⊥) }
{
    let mut copies = Seq::new(alloc);
    copies.items.reserve(births.len())?;
    for made in births {
        copies.push(to_birth(alloc, made)?)?;
    }
    Ok(copies)
}
