// Why an event is refused.

ghost use Rattle.std.specs.Prelude.{◌≡◌};
ghost use Rattle.log_entries.specs.Refusals.{code_of};

use thiserror::Error;

/// Why an event is refused, with the number that reports give it. An event that is refused 20 to 37 stands in the log with
/// its refusal and changes nothing else; one that is refused 38 isn't logged; after 39 no event is accepted any more.
#[derive(Clone, Copy, PartialEq, Eq, Debug, Drop, Error)]
pub enum Refusal {
    /// 20: the node has a primary copy of the object, and no secondary.
    #[error("refused 20: the node has a primary copy of the object, and no secondary")]
    Pinned,
    /// 21: the node has no copy of the object.
    #[error("refused 21: the node has no copy of the object")]
    NoCopy,
    /// 30: the first worker that is named isn't live.
    #[error("refused 30: the first worker that is named isn't live")]
    NoWorker,
    /// 31: the worker has no attempt that is ready, or its job is out.
    #[error("refused 31: the worker has no attempt that is ready, or its job is out")]
    NotReady,
    /// 32: no such job was given out, it was committed, or no outcome of it came.
    #[error("refused 32: no such job was given out, it was committed, or no outcome of it came")]
    NoJob,
    /// 33: the job's worker is dead.
    #[error("refused 33: the job's worker is dead")]
    Stale,
    /// 34: no message has that number.
    #[error("refused 34: no message has that number")]
    NoMessage,
    /// 35: a notice of a worker or node that isn't dead, or never was.
    #[error("refused 35: a notice of a worker or node that isn't dead, or never was")]
    NotDead,
    /// 36: the node isn't live.
    #[error("refused 36: the node isn't live")]
    NoNode,
    /// 37: the event would make an object, worker or node past its limit.
    #[error("refused 37: the event would make an object, worker or node past its limit")]
    Limit,
    /// 38: an earlier event found no memory.
    #[error("refused 38: an earlier event found no memory")]
    Halted,
    /// 39: want of memory.
    #[error("refused 39: want of memory")]
    NoMemory,
}

impl Refusal {
    /// The refusal's number.
    pub fn number(self) -> u16
        ensures { result ≡ code_of self }
    {
        match self {
            Refusal::Pinned => 20,
            Refusal::NoCopy => 21,
            Refusal::NoWorker => 30,
            Refusal::NotReady => 31,
            Refusal::NoJob => 32,
            Refusal::Stale => 33,
            Refusal::NoMessage => 34,
            Refusal::NotDead => 35,
            Refusal::NoNode => 36,
            Refusal::Limit => 37,
            Refusal::Halted => 38,
            Refusal::NoMemory => 39,
        }
    }
}
