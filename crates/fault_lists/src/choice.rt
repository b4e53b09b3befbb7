// Which faults are tried.

/// Which kinds of faults are tried at each place of a history.
#[derive(Clone, Copy, PartialEq, Eq, Debug)]
pub struct FaultChoice {
    /// The death of a worker.
    pub kill: bool,
    /// The death of a worker, of which main's worker is told at once.
    pub told_kill: bool,
    /// The death of a node.
    pub kill_node: bool,
    /// The loss of every copy of an object at a node.
    pub lose: bool,
    /// The loss of the secondary copies of an object at a node.
    pub evict: bool,
}
