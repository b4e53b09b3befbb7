// Who looks on while a run goes on: lent its log behind each turn, and nothing that could change it.

use log_entries::Entry;

/// What looks on at a run: it is lent the run's log and nothing else, so that it can't change what the run does.
pub trait Watcher {
    /// The log so far, oldest entry first. Each look is lent what the one before was, and what came behind it.
    fn look(&mut self, log: &[Entry]);

    /// The run is over, and its report is about to be written.
    fn close(&mut self);
}

/// Nobody looks on.
#[derive(Clone, Copy, Debug, PartialEq, Eq)]
pub struct Unwatched;

impl Watcher for Unwatched {
    fn look(&mut self, _log: &[Entry]) {}

    fn close(&mut self) {}
}
