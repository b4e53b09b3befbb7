// What was done on a job.

use crate::content::SharedContent;
use crate::printed::Printed;
use crate::shared_birth::SharedBirth;
use sequence::Seq;
use small_list::SmallList;
use task_spec::ids::ObjectId;

/// Where a job stopped.
#[derive(Drop)]
pub enum Stopped {
    /// It needs the content of that object.
    AtGet(ObjectId),
    /// The task is done, with a content for each of its results.
    AtEnd(SmallList<SharedContent>),
}

/// What was done on a job: the births and prints that are new, and where it stopped.
#[derive(Drop)]
pub struct Outcomes {
    /// What the job's attempt bore beyond what the job had.
    pub births: Seq<SharedBirth>,
    /// What the job's attempt printed beyond what the job had.
    pub prints: Seq<Printed>,
    /// Where it stopped.
    pub stop: Stopped,
}
