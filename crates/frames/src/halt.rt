// Why the machine stops between two instructions.
ghost use Rattle.std.specs.Prelude.{◌≡◌};

use crate::value::Value;
use small_list::SmallList;
use std::alloc::{AllocError, AllocFailed, Global};
use std::sync::Arc;
use values::Trap;

/// An argument of a remote call, and whether it is dereferenced before the body.
#[derive(Drop)]
pub struct MarkedArgument {
    pub value: Value,
    /// Whether it is a reference that is dereferenced before the body.
    pub is_dereferenced: bool,
}

/// What makes objects: a put one, and a task one a result, of which it has so many beside the first.
#[derive(Drop)]
pub enum Made {
    /// An object with that value.
    Put(Value),
    /// The objects of a remote call, one for each of its results.
    Task {
        function: Arc<String>,
        arguments: SmallList<MarkedArgument>,
        depth: u32,
        retries: u8,
        others: u8,
    },
}

impl Made {
    ghost use Rattle.meaning.specs.Values.{results_of};
    ghost use Rattle.frames.specs.Machines.{made_of};

    /// How many objects it makes.
    pub(crate) fn results(&self) -> usize
        ensures { result ≡ results_of (made_of self.now) }
    {
        match self {
            Made::Put(_) => 1,
            Made::Task {
                function: _,
                arguments: _,
                depth: _,
                retries: _,
                others,
            } => *others as usize + 1,
        }
    }
}

/// Why the machine stops: the run is over, it asks or tells something outside, or it is out of memory. A get says which
/// register takes what it is given, and a birth which is the first of those that take its references.
#[derive(Drop)]
pub enum Halt {
    /// The run is over with these results.
    Over(Vec<Value>),
    /// The run is over with this trap.
    Trap(Trap),
    /// An operand of the wrong kind, which a checked script never meets.
    Broken,
    /// It bears this, whose references go into registers from that one on. It stands behind a pointer, so that a halt is small: each instruction hands one
    /// back, or room for one.
    Bears(Box<Made>, usize),
    /// It gets this reference, whose value goes into that register.
    Asks(Value, usize),
    /// It prints this value.
    Shows(Value),
    /// Memory ran out.
    NoMemory,
}

impl From<AllocError> for Halt {
    ghost use Rattle.frames.specs.declared.halt.Halt.TheVariants.{NoMemory};

    ghost from_gives = { λ _ h. h ≡ NoMemory };

    fn from(_: AllocError) -> Halt {
        Halt::NoMemory
    }
}

impl<T: Drop> From<AllocFailed<T>> for Halt {
    ghost use Rattle.frames.specs.declared.halt.Halt.TheVariants.{NoMemory};

    ghost from_gives = { λ _ h. h ≡ NoMemory };

    fn from(_: AllocFailed<T>) -> Halt {
        Halt::NoMemory
    }
}

/// The want of memory of a growth that is refused, as no memory has room for so many bytes. The machine stops by it where a place or an id has no
/// number any more, since what comes so far is told as want of memory, and that is to come of a growth alone.
#[cold]
#[inline(never)]
pub(crate) fn refused_growth(alloc: Global) -> Halt
    ensures { result ≡ Halt.NoMemory }
{
    let mut bytes: Vec<u8> = Vec::new(alloc);
    match bytes.reserve(usize::MAX) {
        Ok(()) => unreachable!(),
        Err(error) => Halt::from(error),
    }
}
