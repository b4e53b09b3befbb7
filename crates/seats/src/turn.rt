// What a turn comes to.

use log_entries::Refusal;

/// What a turn comes to, where `J` is a job.
#[derive(Drop)]
pub enum Turn<J> {
    /// A claim was applied: its job is to be run and committed.
    Job(J),
    /// Another event was applied.
    Did,
    /// The turn's event was refused.
    Refused(Refusal),
    /// Nothing can be done before a job is committed that is out.
    Again,
    /// Nothing is left to do, or the run was given up.
    End,
}
