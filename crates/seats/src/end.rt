// How a run on threads ends.

use run_paths::Board;
use segment::ScriptName;

/// How a run on threads ended.
#[derive(Drop)]
pub enum Ended<S: ScriptName> {
    /// Nothing was left to do.
    Over(Board<S>),
    /// An event was refused 37: it would have made an object, worker or node past its limit.
    AtLimit(Board<S>),
    /// There was no memory for what the run needed.
    NoMemory,
}
