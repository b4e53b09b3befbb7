// Entries of the log.

use crate::event::Event;
use crate::refusal::Refusal;
use held::ids::{AttemptId, NodeId, ObjectId, WorkerId};
use held::values::Fault;
use held::{Printed, SharedBirth, SharedContent, SmallList};

/// What a log says, oldest first: each event, and behind it what came of it.
#[derive(Drop)]
pub enum Entry {
    /// An event, and the seat from which it came: 0 where no seats are used.
    In {
        event: Event,
        seat: u8,
    },
    /// The event before it was refused.
    Refused(Refusal),
    /// A worker was opened on the node.
    Opened {
        worker: WorkerId,
        node: NodeId,
    },
    /// The attempt's owner learned that the worker runs it.
    Begun {
        attempt: AttemptId,
        worker: WorkerId,
    },
    /// The attempt made the birth's objects, of which this is the first.
    Born {
        object: ObjectId,
        attempt: AttemptId,
        birth: SharedBirth,
    },
    /// A get of the attempt was answered with the object's content.
    Got {
        attempt: AttemptId,
        object: ObjectId,
        content: SharedContent,
    },
    /// Main printed the value.
    Printed(Printed),
    /// The attempt ended, with a content for each result.
    Ended {
        attempt: AttemptId,
        contents: SmallList<SharedContent>,
    },
    /// The attempt's owner learned that it ended.
    Accepted(AttemptId),
    /// A get of the object was answered with a fault, with which the attempt ends.
    Faulted {
        attempt: AttemptId,
        object: ObjectId,
        fault: Fault,
    },
    /// The object has no content and will have none.
    Resolved {
        object: ObjectId,
        fault: Fault,
    },
    /// The object is no longer needed.
    Released(ObjectId),
}
