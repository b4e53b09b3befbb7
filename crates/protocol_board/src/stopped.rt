// Why a replay is stopped before its last event, with the number that is told.

ghost use Rattle.std.specs.Prelude.{◌≡◌};
ghost use Rattle.protocol_board.specs.Stops.{stopped_code};

use std::alloc::AllocError;
use thiserror::Error;

/// Why a replay is stopped before its last event. `From` is written by hand, since the causes that clauses tell apart have to pass through `?`.
#[derive(Clone, Copy, PartialEq, Eq, Debug, Drop, Error)]
pub enum ReplayStop {
    /// 39: a growth was refused.
    #[error("refused 39: want of memory")]
    NoMemory,
    /// 41: more than 100,000 events would be applied.
    #[error("refused 41: more than 100,000 events would be applied")]
    TooLong,
    /// 42: a claim gave another job than the history says.
    #[error("refused 42: a claim gave another job than the history says")]
    WrongJob,
}

impl ReplayStop {
    /// The number behind the word `refused`: 39, 41 or 42.
    pub fn number(self) -> u16
        ensures { result ≡ stopped_code self }
    {
        match self {
            ReplayStop::NoMemory => 39,
            ReplayStop::TooLong => 41,
            ReplayStop::WrongJob => 42,
        }
    }
}

impl From<AllocError> for ReplayStop {
    ghost use Rattle.protocol_board.specs.declared.stopped.ReplayStop.TheVariants.{NoMemory};

    ghost from_gives = { λ _ e. e ≡ NoMemory };

    fn from(_error: AllocError) -> ReplayStop {
        ReplayStop::NoMemory
    }
}
