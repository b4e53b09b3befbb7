// Who is told of jobs, and looks on.

use log_entries::Entry;

/// What is told of a job before it is run, and may look on at the run.
pub trait Gate {
    /// The job of that number is about to be run.
    fn enter(&self, job: u64);

    /// Whether it looks on.
    fn is_watching(&self) -> bool {
        false
    }

    /// The log so far, oldest entry first, behind a commit, where it looks on. It is lent under the run's lock, so that one look follows another, each on
    /// what the one before was lent and on what came behind it.
    fn look(&self, _log: &[Entry]) {}
}
