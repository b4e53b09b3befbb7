// Instructions that ask or tell something outside.

ghost use Rattle.std.specs.Prelude.{◌≡◌, ◌+◌, ◌-◌, ℕ, IfOk, map, false, slice_index_or, string_bytes, vec_len};
ghost use Rattle.std.specs.Arc.{arc_value};
ghost use Rattle.meaning.specs.Values.{Task};
ghost use Rattle.meaning.specs.Meaning.{mark};
ghost use Rattle.frame_laws.specs.Instructions.{PutIn, Fetch, Show};
ghost use Rattle.frame_laws.specs.Machine as laws;
ghost use Rattle.frame_laws.specs.Machine.{values_at};
ghost use Rattle.frame_code.specs.Views.{given_of, spawn_of};
ghost use Rattle.frames.specs.Values.{value_of};
ghost use Rattle.frames.specs.Machines.{argument_of, made_of, Bearing, EndsBy, Met};

use crate::halt::{Halt, Made, MarkedArgument};
use crate::registers::State;
use crate::value::Value;
use crate::working::registers_from;
use frame_code::{Operand, Spawn};
use small_list::SmallList;
use std::alloc::{AllocError, Global};
use std::sync::Arc;

/// The mark of the argument at a place; there is none past the end.
fn mark_at(marks: &[bool], place: usize) -> bool
    ensures { result ≡ slice_index_or marks.now place false }
{
    if place < marks.len() {
        return marks[place];
    }
    false
}

/// The arguments of a remote call, each with its mark.
fn mark(
    alloc: Global,
    values: &[Value],
    marks: &[bool],
) -> Result<SmallList<MarkedArgument>, AllocError>
    ensures { IfOk result (λ args. map argument_of args ≡ mark (map value_of values.now) marks.now) }
{
    let mut arguments = SmallList::new(alloc);
    for value in values {
        let is_dereferenced = mark_at(marks, arguments.len());
        let value = value.share()?;
        arguments.push(MarkedArgument {
            value,
            is_dereferenced,
        })?;
    }
    Ok(arguments)
}

impl State {
    /// The depth of what is called from here, where as many calls may wait.
    fn depth(&self, limit: usize) -> u32
        ensures { result ≡ 33 - (limit - vec_len self.now.callers) }
    {
        let left = limit.saturating_sub(self.callers.len());
        33usize.saturating_sub(left) as u32
    }

    /// The task that a remote call makes.
    fn task(&self, limit: usize, spawn: &Spawn) -> Result<Made, AllocError>
        ensures { IfOk result (λ m. made_of m ≡ Task (string_bytes (arc_value spawn.now.function))
            (mark (values_at (map value_of self.now.registers.items) (self.now.base + spawn.now.first) spawn.now.count) spawn.now.marks.items)
            (33 - (limit - vec_len self.now.callers)) spawn.now.retries spawn.now.others) }
    {
        let alloc = *self.registers.allocator();
        let values = registers_from(&self.registers, self.place(spawn.first), spawn.count);
        let arguments = mark(alloc, values, &spawn.marks)?;
        let function = Arc::try_clone(&spawn.function)?;
        Ok(Made::Task {
            function,
            arguments,
            depth: self.depth(limit),
            retries: spawn.retries,
            others: spawn.others,
        })
    }

    /// Why the machine stops where it bears this, whose references go into registers of the call from that one on.
    fn bears(&self, made: Made, to: u32) -> Halt
        ensures { (a : laws.Act) → a ≡ laws.Bore (made_of made) (self.now.base + to) → EndsBy result a }
    {
        match Box::new(*self.registers.allocator(), made) {
            Ok(made) => Halt::Bears(made, self.place(to)),
            Err(error) => Halt::from(error),
        }
    }

    /// What a remote call bears, behind which the machine stands.
    #[inline(always)]
    pub(crate) fn spawned(&self, limit: usize, spawn: &Spawn) -> Result<Made, AllocError>
        ensures { IfOk result (λ m. (code : laws.Code) → Bearing code limit self.now (spawn_of spawn.now) (made_of m) (self.now.base + spawn.now.to)) }
    {
        self.task(limit, spawn)
    }

    /// A remote call.
    pub(crate) fn spawn(&self, limit: usize, spawn: &Spawn) -> Halt
        ensures { (code : laws.Code) → Met code limit self.now (spawn_of spawn.now) result }
    {
        match self.spawned(limit, spawn) {
            Ok(task) => self.bears(task, spawn.to),
            Err(error) => Halt::from(error),
        }
    }

    /// Why the machine stops at a put: it bears the object with the operand's value.
    pub(crate) fn put_object(&self, to: u32, value: &Operand) -> Halt
        ensures { (code : laws.Code) (limit : ℕ) → Met code limit self.now (PutIn to (given_of value.now)) result }
    {
        match self.operand(value) {
            Ok(value) => self.bears(Made::Put(value), to),
            Err(halt) => halt,
        }
    }

    /// Why the machine stops at a get: it asks for what the reference leads to; any other operand is of the wrong kind.
    pub(crate) fn get(&self, to: u32, reference: &Operand) -> Halt
        ensures { (code : laws.Code) (limit : ℕ) → Met code limit self.now (Fetch to (given_of reference.now)) result }
    {
        match self.operand(reference) {
            Ok(reference) => {
                if reference.is_reference() {
                    return Halt::Asks(reference, self.place(to));
                }
                Halt::Broken
            }
            Err(halt) => halt,
        }
    }

    /// Why the machine stops at a print: it shows the operand's value.
    pub(crate) fn print(&self, value: &Operand) -> Halt
        ensures { (code : laws.Code) (limit : ℕ) → Met code limit self.now (Show (given_of value.now)) result }
    {
        match self.operand(value) {
            Ok(value) => Halt::Shows(value),
            Err(halt) => halt,
        }
    }
}
