// Why an object has no content: the kinds of faults, and the object in which one began.

use ids::ObjectId;
use std::marker::Model;

/// Why an object has no content and will have none.
#[derive(Clone, Copy, PartialEq, Eq, Debug)]
pub enum FaultKind {
    /// The worker that owns it died.
    OwnerDied,
    /// It was put, and its copy was lost.
    PutLost,
    /// All runs that its task was allowed broke.
    RetriesUsed,
}

/// A fault, and the object in which it began. A fault does not belong to the script's meaning: the system failed.
#[derive(Clone, Copy, PartialEq, Eq, Debug)]
pub struct Fault {
    /// In which way the system failed.
    pub kind: FaultKind,
    /// The object in which it began, which need not be the one that has it.
    pub object: ObjectId,
}

impl Model for Fault {
    ghost use Rattle.values.specs.Faults.{Fault as AFault};
    ghost use Rattle.values.specs.FaultCodes.{fault_code};

    ghost Value = { AFault };

    ghost coded = { fault_code };

    ghost view = { λ f. record { kind = f.kind; object = f.object } };

    ghost inverse = { λ f. record { kind = f.kind; object = f.object } };
}
