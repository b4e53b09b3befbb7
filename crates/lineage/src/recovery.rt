// A plan, and why there is none.

use sequence::Seq;
use std::alloc::AllocError;
use thiserror::Error;
use values::Fault;

/// Which objects are made again for a lost one.
#[derive(Drop)]
pub struct Plan {
    /// Their serials among the owner's objects, in birth order, so that arguments come first.
    pub serials: Seq<u64>,
}

/// Why there is no plan. `From` is written by hand, since the causes that clauses tell apart have to pass through `?`.
#[derive(Clone, Copy, PartialEq, Eq, Debug, Drop, Error)]
pub enum Stop {
    /// An object that would have to be made again can't be: the first such one in birth order, with its cause. It was put, or its task has no
    /// retries left.
    #[error("an object that would have to be made again was put, or has no retries left")]
    CannotBeRemade(Fault),
    /// A growth was refused.
    #[error("want of memory")]
    NoMemory,
}

impl From<AllocError> for Stop {
    ghost use Rattle.std.specs.Prelude.{◌≡◌};
    ghost use Rattle.lineage.specs.declared.recovery.Stop.TheVariants.{NoMemory};

    ghost from_gives = { λ _ e. e ≡ NoMemory };

    fn from(_error: AllocError) -> Stop {
        Stop::NoMemory
    }
}
