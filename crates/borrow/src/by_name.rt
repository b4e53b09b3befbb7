// Holders as a type's own calls.

ghost use Rattle.std.specs.Prelude.{◌≡◌, ◌↔◌, ◌&&◌, ◌||◌, OnErr, OnOk, false, not, true};
ghost use Rattle.meaning.specs.Births.{same_id};
ghost use Rattle.meaning.specs.Values.{Id};
ghost use Rattle.protocol.specs.Sets.{has_id};
ghost use Rattle.protocol.specs.Tables.{is_held, with_holder, without_holder};
ghost use Rattle.borrow.specs.Held.{holds};

use crate::holders::{add, is_held, remove};
use ids::ObjectId;
use protocol_data::Object;
use std::alloc::AllocError;

/// Who holds an object.
pub trait Holders {
    /// Adds a holder. One that was removed before doesn't come to hold the object again. An error is want of memory for a holder that was never added,
    /// and nothing is changed then.
    fn add(&mut self, holder: ObjectId) -> Result<(), AllocError>;

    /// Removes a holder, and no other. An error is want of memory for a holder that was never removed, and nothing is changed then.
    fn remove(&mut self, holder: ObjectId) -> Result<(), AllocError>;

    /// Whether anyone holds it. It takes no memory.
    fn is_held(&self) -> bool;
}

impl Holders for Object {
    fn add(&mut self, holder: ObjectId) -> Result<(), AllocError>
        ensures step { OnOk result (self.new ≡ with_holder holder self.old) }
        ensures err { OnErr result (self.new ≡ self.old) }
        ensures grows { OnErr result (has_id self.old.added holder ≡ false) }
        ensures added { (e : Id) → OnOk result (holds self.new e ≡ ((has_id self.old.added e || same_id holder e) && not (has_id self.old.removed e))) }
        ensures late { has_id self.old.removed holder ≡ true → (e : Id) → OnOk result (holds self.new e ≡ holds self.old e) }
    {
        add(self, holder)
    }

    fn remove(&mut self, holder: ObjectId) -> Result<(), AllocError>
        ensures step { OnOk result (self.new ≡ without_holder holder self.old) }
        ensures err { OnErr result (self.new ≡ self.old) }
        ensures grows { OnErr result (has_id self.old.removed holder ≡ false) }
        ensures removed { (e : Id) → OnOk result (holds self.new e ≡ (holds self.old e && not (same_id holder e))) }
    {
        remove(self, holder)
    }

    fn is_held(&self) -> bool
        ensures step { result ≡ is_held self.now }
        ensures someone { (result ≡ true) ↔ ((e : Id) × (holds self.now e ≡ true)) }
    {
        is_held(self)
    }
}
