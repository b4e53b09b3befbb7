// What an event is answered: the job that it gives out, that it was taken, or why it was refused.

use log_entries::Refusal;
use segment::{Job, ScriptName};

/// What is answered to an event.
#[derive(Drop)]
pub enum Reply<S: ScriptName> {
    /// The claim's job.
    Job(Job<S>),
    /// The event is accepted.
    Ok,
    /// The event is refused.
    Refused(Refusal),
}
