// How a run ended, and references to its results in a serial run.

ghost use Rattle.std.specs.Prelude.{◌≡◌, IfOk, IfErr, Some, drop, false, map};
ghost use Rattle.meaning.specs.Values.{Known, Returned, Aborted, Broken, first_outcome, outcomes};
ghost use Rattle.values.specs.Values.{trap_of};
ghost use Rattle.frames.specs.Values.{value_of, outcome_of};
ghost use Rattle.frames.specs.Machines.{goes_on};
ghost use Rattle.frames.specs.Tasks.{ended_by};

use crate::halt::Halt;
use crate::value::{Outcome, Value};
use std::alloc::{AllocError, Global};
use std::rc::Rc;
use values::Trap;

/// How a run ended: with its results, with a trap, or by an operand of the wrong kind.
#[derive(Drop)]
pub(crate) enum End {
    /// With these results, in order.
    Returned(Vec<Value>),
    /// With this trap, the task's own or one that it got.
    Trap(Trap),
    /// By an operand of the wrong kind, which a checked script never meets.
    Broken,
}

/// The outcome of the first of a run's results. A run that has none is broken.
fn first_of(values: Vec<Value>) -> Outcome
    ensures { outcome_of result ≡ first_outcome (Returned (map value_of values.items)) }
{
    let mut values = values;
    if values.is_empty() {
        return Outcome::Broken;
    }
    Outcome::Value(values.swap_remove(0))
}

/// The outcome of the result at a place, which is broken where the run has no such result.
fn outcome_at(values: &[Value], place: usize) -> Result<Outcome, AllocError>
    ensures { IfOk result (λ c. outcome_of c ≡ first_outcome (Returned (map value_of (drop place values.now)))) }
{
    if place >= values.len() {
        return Ok(Outcome::Broken);
    }
    Ok(Outcome::Value(values[place].share()?))
}

/// The reference in a serial run that is an outcome.
pub(crate) fn reference_to(alloc: Global, outcome: Outcome) -> Result<Value, AllocError>
    ensures { IfOk result (λ v. value_of v ≡ Known (outcome_of outcome)) }
{
    Ok(Value::Known(Rc::new(alloc, outcome)?))
}

/// References to so many results.
fn to_values(alloc: Global, values: &[Value], count: usize) -> Result<Vec<Value>, AllocError>
    ensures { IfOk result (λ rs. map value_of rs.items ≡ map Known (outcomes count (Returned (map value_of values.now)))) }
{
    let mut references = Vec::new(alloc);
    for place in 0..count {
        let outcome = outcome_at(values, place)?;
        references.push(reference_to(alloc, outcome)?)?;
    }
    Ok(references)
}

/// So many references to a trap.
fn to_trap(alloc: Global, trap: Trap, count: usize) -> Result<Vec<Value>, AllocError>
    ensures { IfOk result (λ rs. map value_of rs.items ≡ map Known (outcomes count (Aborted (trap_of trap)))) }
{
    let mut references = Vec::new(alloc);
    for _ in 0..count {
        references.push(reference_to(alloc, Outcome::Trap(trap))?)?;
    }
    Ok(references)
}

/// References to so many results of a broken run.
fn to_broken(alloc: Global, count: usize) -> Result<Vec<Value>, AllocError>
    ensures { IfOk result (λ rs. map value_of rs.items ≡ map Known (outcomes count (Aborted Broken))) }
{
    let mut references = Vec::new(alloc);
    for _ in 0..count {
        references.push(reference_to(alloc, Outcome::Broken)?)?;
    }
    Ok(references)
}

impl End {
    ghost use Rattle.frames.specs.Endings.{end_of};

    /// How a run ended that a halt ends. An error is the halt's want of memory.
    pub(crate) fn of(halt: Halt) -> Result<End, AllocError>
        requires { goes_on halt ≡ false }
        ensures value { IfOk result (λ e. ended_by halt ≡ Some (end_of e)) }
        ensures refused { IfErr result (λ _. halt ≡ Halt.NoMemory) }
    {
        match halt {
            Halt::Over(values) => Ok(End::Returned(values)),
            Halt::Trap(trap) => Ok(End::Trap(trap)),
            Halt::Broken => Ok(End::Broken),
            Halt::NoMemory => Err(AllocError),
            Halt::Bears(_, _) => unreachable!(),
            Halt::Asks(_, _) => unreachable!(),
            Halt::Shows(_) => unreachable!(),
        }
    }

    /// The outcome of the first result.
    pub(crate) fn first(self) -> Outcome
        ensures { outcome_of result ≡ first_outcome (end_of self) }
    {
        match self {
            End::Returned(values) => first_of(values),
            End::Trap(trap) => Outcome::Trap(trap),
            End::Broken => Outcome::Broken,
        }
    }

    /// A reference for each of so many results of a call: to each result, where it ended with results, else each to what it ended with.
    pub(crate) fn references(&self, alloc: Global, count: usize) -> Result<Vec<Value>, AllocError>
        ensures { IfOk result (λ rs. map value_of rs.items ≡ map Known (outcomes count (end_of self.now))) }
    {
        match self {
            End::Returned(values) => to_values(alloc, values, count),
            End::Trap(trap) => to_trap(alloc, *trap, count),
            End::Broken => to_broken(alloc, count),
        }
    }
}
