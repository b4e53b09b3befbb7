// Jobs as they are given out.

use crate::answers::Answers;
use crate::births::Births;
use crate::prints::Prints;
use crate::shared_birth::SharedBirth;
use task_spec::ids::{AttemptId, ObjectId};

/// The parts of a job: an attempt of a task, to be run up to the next answer that it needs.
#[derive(Drop)]
pub struct JobParts {
    /// Counted from 1, in the order of claims.
    pub number: u64,
    /// The attempt that the job carries on.
    pub attempt: AttemptId,
    /// What the attempt runs.
    pub spec: SharedBirth,
    /// The id of the attempt's first own birth; the others follow.
    pub base: ObjectId,
    /// What it bore so far.
    pub births: Births,
    /// What it printed so far.
    pub prints: Prints,
    /// What it was answered so far, its dereferenced arguments first.
    pub answers: Answers,
}
