// What the instruction works on at which the machine stands.

ghost use Rattle.std.specs.Prelude.{◌≡◌, IfOk, Some, map};
ghost use Rattle.frame_code.specs.Views.{given_of, instruction_of, code_of};
ghost use Rattle.frames.specs.Values.{value_of};
ghost use Rattle.frames.specs.Machines.{state_of, given_value, register};
ghost use Rattle.frames.specs.OwnTraps.{IsSpot, call_of, first_operand, second_operand, shown_in, shown_of};

use crate::registers::State;
use crate::step::instruction_at;
use crate::value::Value;
use frame_code::{Code, Instruction, Operand};
use spots::{Shown, Spot};
use std::alloc::AllocError;

/// What is told of a value.
fn shown(value: &Value) -> Shown
    ensures { result ≡ shown_of (value_of value.now) }
{
    match value {
        Value::Int(number) => Shown::Number(*number),
        Value::List(items) => Shown::List(items.values.len()),
        Value::Id(_) => Shown::Reference,
        Value::Known(_) => Shown::Reference,
    }
}

impl State {
    /// What is told of a register, where it is there.
    fn shown_at(&self, place: usize) -> Option<Shown>
        ensures { result ≡ shown_in (register self.now place) }
    {
        if place >= self.registers.len() {
            return None;
        }
        Some(shown(&self.registers[place]))
    }

    /// What is told of an operand.
    fn shown_operand(&self, operand: &Operand) -> Option<Shown>
        ensures { result ≡ shown_in (given_value self.now (given_of operand.now)) }
    {
        match operand {
            Operand::Slot(slot) => self.shown_at(self.place(*slot)),
            Operand::Number(number) => Some(Shown::Number(*number)),
        }
    }

    /// What is told of an instruction's first operand.
    fn shown_first(&self, instruction: &Instruction) -> Option<Shown>
        ensures { result ≡ shown_in (first_operand (state_of self.now) (Some (instruction_of instruction.now))) }
    {
        match instruction {
            Instruction::One(_, _, operand) => self.shown_operand(operand),
            Instruction::Two(_, _, left, _) => self.shown_operand(left),
            Instruction::Sum(_, left, _)
            | Instruction::Difference(_, left, _)
            | Instruction::Product(_, left, _)
            | Instruction::IsLess(_, left, _)
            | Instruction::IsEqual(_, left, _)
            | Instruction::ItemOf(_, left, _) => self.shown_at(self.place(*left)),
            Instruction::SumWith(_, left, _)
            | Instruction::DifferenceWith(_, left, _)
            | Instruction::ProductWith(_, left, _)
            | Instruction::RemainderBy(_, left, _)
            | Instruction::IsLessThan(_, left, _)
            | Instruction::IsEqualTo(_, left, _) => self.shown_at(self.place(*left)),
            Instruction::Begin(first, _) => self.shown_at(self.place(*first)),
            _ => None,
        }
    }

    /// What is told of an instruction's second operand.
    fn shown_second(&self, instruction: &Instruction) -> Option<Shown>
        ensures { result ≡ shown_in (second_operand (state_of self.now) (Some (instruction_of instruction.now))) }
    {
        match instruction {
            Instruction::Two(_, _, _, right) => self.shown_operand(right),
            Instruction::Sum(_, _, right)
            | Instruction::Difference(_, _, right)
            | Instruction::Product(_, _, right)
            | Instruction::IsLess(_, _, right)
            | Instruction::IsEqual(_, _, right)
            | Instruction::ItemOf(_, _, right) => self.shown_at(self.place(*right)),
            Instruction::SumWith(_, _, right)
            | Instruction::DifferenceWith(_, _, right)
            | Instruction::ProductWith(_, _, right)
            | Instruction::RemainderBy(_, _, right)
            | Instruction::IsLessThan(_, _, right)
            | Instruction::IsEqualTo(_, _, right) => Some(Shown::Number(*right)),
            Instruction::Begin(first, _) => self.shown_at(self.place(*first) + 1),
            _ => None,
        }
    }

    /// Where the calls stand that wait, the newest first.
    fn calls(&self) -> Result<Vec<usize>, AllocError>
        ensures { IfOk result (λ calls. calls.items ≡ map call_of (state_of self.now).callers) }
    {
        let mut calls = Vec::new(*self.registers.allocator());
        for caller in &self.callers {
            calls.push(caller.pc.saturating_sub(1))?;
        }
        calls.reverse();
        Ok(calls)
    }

    /// The spot of the instruction at which the machine stands.
    pub(crate) fn spot(&self, code: &Code) -> Result<Spot, AllocError>
        ensures { IfOk result (IsSpot (code_of code.now) (state_of self.now)) }
    {
        let callers = self.calls()?;
        let Some(instruction) = instruction_at(code, self.pc) else {
            return Ok(Spot {
                pc: self.pc,
                left: None,
                right: None,
                callers,
            });
        };
        Ok(Spot {
            pc: self.pc,
            left: self.shown_first(instruction),
            right: self.shown_second(instruction),
            callers,
        })
    }
}
