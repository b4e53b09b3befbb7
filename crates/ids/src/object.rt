// The ids of objects, their order, and their texts, as `o3.7`, written and read.

use crate::number::{read_number, split_at_dot};
use crate::worker::WorkerId;
use std::fmt;
use std::marker::Model;

/// An object: the worker that owns it, and its number there, in the order in which the worker made its objects. Main's own
/// object is `o1.0`. Ordered by owner, then by serial.
#[derive(Clone, Copy, PartialEq, Eq, PartialOrd, Ord, Hash, Debug)]
pub struct ObjectId {
    /// The worker whose attempt bore it.
    pub owner: WorkerId,
    /// Counted from 1 for each owner, in the order in which it made its objects; main's own object `o1.0` alone has 0.
    pub serial: u64,
}

impl Model for ObjectId {
    ghost use Rattle.meaning.specs.Values.{Id};
    ghost use Rattle.ids.specs.Codes.{id_code};

    ghost Value = { Id };

    ghost coded = { id_code };

    ghost view = { λ o. record { owner = o.owner; serial = o.serial } };

    ghost inverse = { λ o. record { owner = o.owner; serial = o.serial } };
}

impl fmt::Display for ObjectId {
    ghost use Rattle.std.specs.Prelude.{Some};
    ghost use Rattle.ids.specs.Texts.{object_text};

    ghost output = { λ o. Some (object_text o) };

    fn fmt<W: fmt::Write>(&self, f: &mut fmt::Formatter<W>) -> fmt::Result {
        let owner = self.owner.0;
        let serial = self.serial;
        write!(f, "o{owner}.{serial}")
    }
}

impl ObjectId {
    ghost use Rattle.std.specs.Prelude.{◌≡◌, ◌==◌, ◌+◌, ◌<◌, ◌^◌, IfSome, Some};
    ghost use Rattle.meaning.specs.Values.{Id};
    ghost use Rattle.meaning.specs.Births.{same_id};
    ghost use Rattle.meaning.specs.Runs.{next_id};
    ghost use Rattle.ids.specs.Texts.{object_text, IsObject};

    /// Whether the ids are the same.
    pub fn is(self, other: ObjectId) -> bool
        ensures { result ≡ same_id self other }
    {
        self.owner.0 == other.owner.0 && self.serial == other.serial
    }

    /// The next object of the same owner.
    pub fn next(self) -> ObjectId
        requires { self.serial + 1 < 2 ^ 64 }
        ensures { result ≡ next_id self }
    {
        ObjectId {
            owner: self.owner,
            serial: self.serial + 1,
        }
    }

    /// Whether the worker owns the object.
    pub fn owned_by(self, worker: WorkerId) -> bool
        ensures { result ≡ (self.owner == worker) }
    {
        self.owner.is(worker)
    }

    /// The object that a text such as `o3.7` names, with no leading zeros; no other text names one. Takes no memory.
    pub fn read(text: &[u8]) -> Option<ObjectId>
        ensures found { IfSome result (λ o. text.now ≡ object_text o) }
        ensures only { (o : Id) → IsObject o → text.now ≡ object_text o → result ≡ Some o }
    {
        let [b'o', rest @ ..] = text else {
            return None;
        };
        let Some((owner, serial)) = split_at_dot(rest) else {
            return None;
        };
        let Some(owner) = read_number(owner) else {
            return None;
        };
        let Some(serial) = read_number(serial) else {
            return None;
        };
        if owner > 4294967295 {
            return None;
        }
        let owner = owner as u32;
        Some(ObjectId {
            owner: WorkerId(owner),
            serial,
        })
    }
}
