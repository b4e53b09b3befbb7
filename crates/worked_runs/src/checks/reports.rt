// The report of a log in which a fault spreads, objects are released, and an event is refused.

use crate::checks::failed::{Checked, wants};
use held::{Printed, SharedBirth, SharedContent};
use ids::{AttemptId, NodeId, ObjectId, WorkerId};
use log_entries::{Entry, Event, Refusal, SmallList};
use report_text::{report_text, status_of};
use std::alloc::{AllocError, Global};
use task_spec::Birth;
use values::{Fault, FaultKind, RunValue, Trap};

fn object(owner: u32, serial: u64) -> ObjectId {
    ObjectId {
        owner: WorkerId(owner),
        serial,
    }
}

fn attempt(owner: u32, serial: u64) -> AttemptId {
    AttemptId {
        object: object(owner, serial),
        number: 0,
    }
}

fn event(event: Event) -> Entry {
    Entry::In { event, seat: 0 }
}

fn begun(attempt: AttemptId, worker: u32) -> Entry {
    Entry::Begun {
        attempt,
        worker: WorkerId(worker),
    }
}

fn faulted(attempt: AttemptId, object: ObjectId, kind: FaultKind, cause: ObjectId) -> Entry {
    let fault = Fault {
        kind,
        object: cause,
    };
    Entry::Faulted {
        attempt,
        object,
        fault,
    }
}

fn resolved(object: ObjectId, kind: FaultKind, cause: ObjectId) -> Entry {
    let fault = Fault {
        kind,
        object: cause,
    };
    Entry::Resolved { object, fault }
}

/// A log with an entry of each kind: main's put o1.1 is lost, two tasks that need it end with the fault, and main with them.
fn faults(alloc: Global) -> Result<Vec<Entry>, AllocError> {
    let cause = object(1, 1);
    let evict = Event::Evict {
        node: NodeId(1),
        object: cause,
    };
    let items = vec![in alloc; RunValue::Int(-3), RunValue::Id(object(1, 2))]?;
    let value = RunValue::List(items);
    let birth = SharedBirth::new(alloc, Birth::Put(RunValue::Int(6)))?;
    let content = SharedContent::new(alloc, values::Content::Trap(Trap::Loop))?;
    let shared = content.copy(alloc)?;
    let contents = SmallList::one(alloc, content);
    let log = vec![in alloc;
        Entry::Opened {
            worker: WorkerId(1),
            node: NodeId(1)
        },
        event(evict),
        Entry::Refused(Refusal::Pinned),
        begun(attempt(1, 0), 1),
        Entry::Born {
            object: cause,
            attempt: attempt(1, 0),
            birth
        },
        Entry::Printed(Printed { inner: value }),
        begun(attempt(1, 2), 2),
        begun(attempt(1, 3), 3),
        begun(attempt(1, 4), 4),
        Entry::Ended {
            attempt: attempt(1, 4),
            contents
        },
        Entry::Accepted(attempt(1, 4)),
        Entry::Got {
            attempt: attempt(1, 3),
            object: object(1, 4),
            content: shared
        },
        resolved(cause, FaultKind::PutLost, cause),
        faulted(attempt(1, 2), cause, FaultKind::PutLost, cause),
        resolved(object(1, 2), FaultKind::PutLost, cause),
        faulted(attempt(1, 3), object(1, 2), FaultKind::PutLost, cause),
        resolved(object(1, 3), FaultKind::PutLost, cause),
        faulted(attempt(1, 0), object(1, 3), FaultKind::PutLost, cause),
        Entry::Released(object(1, 3)),
        Entry::Released(object(1, 2)),
        Entry::Released(cause),
    ]?;
    Ok(log)
}

/// The report of a log with an entry of each kind, and its status.
pub fn each_entry_gives_its_lines(alloc: Global) -> Checked {
    let log = faults(alloc)?;
    let text = report_text(alloc, log.as_slice())?;
    let expected =
        "print [-3, o1.2]\nmain fault PutLost o1.1\nattempt a1.2#0 w2 faulted\nattempt a1.3#0 w3 faulted\n\
        attempt a1.4#0 w4 accepted\nresolved o1.1 PutLost o1.1\nresolved o1.2 PutLost o1.1\nresolved o1.3 PutLost o1.1\n\
        released o1.3\nreleased o1.2\nreleased o1.1\nrefused 20 evict 1 o1.1\n";
    wants(text.as_str() == expected, "the report")?;
    wants(status_of(log.as_slice()) == 2, "the status")
}
