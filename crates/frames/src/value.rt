// The machine's values, which share their lists, and how a call ends.

ghost use Rattle.std.specs.Prelude.{◌≡◌, IfOk};
ghost use Rattle.meaning.specs.Meaning.{is_reference};
ghost use Rattle.frames.specs.Values.{value_of, is_number};

use ids::ObjectId;
use std::alloc::AllocError;
use std::rc::Rc;
use values::Trap;

/// A value, as a run has it. Its lists, ids and outcomes are shared, so that an equal value costs no more than a count.
#[derive(Drop)]
#[cycle(value)]
pub enum Value {
    /// A number.
    Int(i64),
    /// A list of values.
    List(Rc<Items>),
    /// A reference in a run in pieces.
    Id(Rc<ObjectId>),
    /// A reference in a serial run.
    Known(Rc<Outcome>),
}

/// The items of a list.
#[derive(Drop)]
#[cycle(value)]
pub struct Items {
    /// In the list's order.
    pub values: Vec<Value>,
}

/// How a call ends.
#[derive(Drop)]
#[cycle(value)]
pub enum Outcome {
    /// It returned this value.
    Value(Value),
    /// It trapped, or was handed this trap.
    Trap(Trap),
    /// An operand of the wrong kind, which a checked script never meets.
    Broken,
}

impl Value {
    /// An equal value, which shares what this one holds.
    pub(crate) fn share(&self) -> Result<Value, AllocError>
        ensures { IfOk result (λ v. value_of v ≡ value_of self.now) }
    {
        match self {
            Value::Int(n) => Ok(Value::Int(*n)),
            Value::List(items) => Ok(Value::List(Rc::clone(items)?)),
            Value::Id(object) => Ok(Value::Id(Rc::clone(object)?)),
            Value::Known(outcome) => Ok(Value::Known(Rc::clone(outcome)?)),
        }
    }

    /// Whether it is an `int`.
    #[inline(always)]
    pub(crate) fn is_number(&self) -> bool
        ensures { result ≡ is_number (value_of self.now) }
    {
        match self {
            Value::Int(_) => true,
            Value::List(_) => false,
            Value::Id(_) => false,
            Value::Known(_) => false,
        }
    }

    /// Whether it is a reference: an id in a run in pieces, an outcome in a serial run.
    pub(crate) fn is_reference(&self) -> bool
        ensures { result ≡ is_reference (value_of self.now) }
    {
        match self {
            Value::Int(_) => false,
            Value::List(_) => false,
            Value::Id(_) => true,
            Value::Known(_) => true,
        }
    }
}
