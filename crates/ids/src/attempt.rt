// The ids of attempts, their order and their texts, as `a3.7#1`.

use crate::object::ObjectId;
use crate::worker::WorkerId;
use std::fmt;
use std::marker::Model;

/// A run of the task that makes an object: the object, and the attempt's number, counted from 0. Its text is `a3.7#1`.
/// Ordered by object, then by number.
#[derive(Clone, Copy, PartialEq, Eq, PartialOrd, Ord, Hash, Debug)]
pub struct AttemptId {
    /// The first object that its task makes.
    pub object: ObjectId,
    /// Counted from 0: the task's first run, then its new ones.
    pub number: u32,
}

impl Model for AttemptId {
    ghost use Rattle.ids.specs.Attempts.{Attempt};
    ghost use Rattle.ids.specs.Codes.{attempt_code};

    ghost Value = { Attempt };

    ghost coded = { attempt_code };

    ghost view = { λ a. record { object = a.object; number = a.number } };

    ghost inverse = { λ a. record { object = a.object; number = a.number } };
}

impl fmt::Display for AttemptId {
    ghost use Rattle.std.specs.Prelude.{Some};
    ghost use Rattle.ids.specs.Texts.{attempt_text};

    ghost output = { λ a. Some (attempt_text a) };

    fn fmt<W: fmt::Write>(&self, f: &mut fmt::Formatter<W>) -> fmt::Result {
        let owner = self.object.owner.0;
        let serial = self.object.serial;
        let number = self.number;
        write!(f, "a{owner}.{serial}#{number}")
    }
}

impl AttemptId {
    ghost use Rattle.std.specs.Prelude.{◌≡◌};
    ghost use Rattle.ids.specs.Attempts.{same_attempt};

    /// Whether the attempts are the same.
    pub fn is(self, other: AttemptId) -> bool
        ensures { result ≡ same_attempt self other }
    {
        self.object.is(other.object) && self.number == other.number
    }

    /// The worker that owns the attempt's object.
    pub fn owner(self) -> WorkerId
        ensures { result ≡ self.object.owner }
    {
        self.object.owner
    }
}
