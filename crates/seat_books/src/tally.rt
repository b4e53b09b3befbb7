// Four numbers for a book, by which it grows.

/// Four numbers for a book.
#[derive(Clone, Copy, Debug, PartialEq, Eq)]
pub struct Tally {
    /// How many events came into the log, taken or refused.
    pub events: u64,
    /// The sum of the numbers of the jobs that were given out.
    pub given: u64,
    /// How many commits were accepted.
    pub commits: u64,
    /// The sum of the numbers of their jobs.
    pub committed: u64,
}
