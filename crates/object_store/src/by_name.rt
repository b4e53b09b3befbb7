// A store of copies as a type's own calls.

ghost use Rattle.std.specs.Prelude.{◌≡◌, ◌≢◌, IfNone, IfOk, None, OnErr, OnOk, false};
ghost use Rattle.std.specs.List.{list_any};
ghost use Rattle.protocol.specs.Stores.{copy_in, evict_refusal, evicted, is_copy_of, lose_refusal, looked_up, with_primary, with_secondary, without_copies};
ghost use Rattle.object_store.specs.Refusals.{refused};

use crate::stores::{evict, get, lose, put_primary, put_secondary};
use held::SharedContent;
use ids::ObjectId;
use log_entries::Refusal;
use protocol_data::Store;
use std::alloc::{AllocError, Global};

/// A node's copies, each known by its object and the number of the attempt whose content it is, 0 for what was put. On an error nothing is changed.
pub trait CopyStore {
    /// Puts a primary copy, in place of one of the same content. An error is want of memory.
    fn put_primary(
        &mut self,
        object: ObjectId,
        number: u32,
        content: SharedContent,
    ) -> Result<(), AllocError>;

    /// Puts a secondary copy as the one used last, unless there is a primary one. Where there are sixteen others, the one used longest ago goes.
    /// An error is want of memory for a copy that no primary one stands for.
    fn put_secondary(
        &mut self,
        alloc: Global,
        object: ObjectId,
        number: u32,
        content: SharedContent,
    ) -> Result<(), AllocError>;

    /// The content of a copy, a primary before a secondary one. A secondary copy that is found is the one used last; where none is found the store is
    /// as it was. An error is want of memory for a copy that is found.
    fn get(
        &mut self,
        alloc: Global,
        object: ObjectId,
        number: u32,
    ) -> Result<Option<SharedContent>, AllocError>;

    /// All secondary copies of the object go. Refused where there is none: pinned if a primary one is there. It takes no memory.
    fn evict(&mut self, object: ObjectId) -> Result<(), Refusal>;

    /// Every copy of the object is lost. Refused where there is none. It takes no memory.
    fn lose(&mut self, object: ObjectId) -> Result<(), Refusal>;
}

impl CopyStore for Store {
    fn put_primary(
        &mut self,
        object: ObjectId,
        number: u32,
        content: SharedContent,
    ) -> Result<(), AllocError>
        ensures ok { OnOk result (self.new ≡ with_primary self.old object number content) }
        ensures err { OnErr result (self.new ≡ self.old) }
    {
        put_primary(self, object, number, content)
    }

    fn put_secondary(
        &mut self,
        alloc: Global,
        object: ObjectId,
        number: u32,
        content: SharedContent,
    ) -> Result<(), AllocError>
        ensures ok { OnOk result (self.new ≡ with_secondary self.old object number content) }
        ensures err { OnErr result (self.new ≡ self.old) }
        ensures grows { OnErr result (list_any (is_copy_of object number) self.old.primaries ≡ false) }
    {
        put_secondary(alloc, self, object, number, content)
    }

    fn get(
        &mut self,
        alloc: Global,
        object: ObjectId,
        number: u32,
    ) -> Result<Option<SharedContent>, AllocError>
        ensures content { IfOk result (λ c. c ≡ copy_in self.old object number) }
        ensures after { OnOk result (self.new ≡ looked_up self.old object number) }
        ensures none { IfOk result (λ c. IfNone c (self.new ≡ self.old)) }
        ensures err { OnErr result (self.new ≡ self.old) }
        ensures grows { OnErr result (copy_in self.old object number ≢ None) }
    {
        get(alloc, self, object, number)
    }

    fn evict(&mut self, object: ObjectId) -> Result<(), Refusal>
        ensures answer { refused result ≡ evict_refusal object self.old }
        ensures ok { OnOk result (self.new ≡ evicted self.old object) }
        ensures err { OnErr result (self.new ≡ self.old) }
        ensures pinned { self.new.primaries ≡ self.old.primaries }
    {
        evict(self, object)
    }

    fn lose(&mut self, object: ObjectId) -> Result<(), Refusal>
        ensures answer { refused result ≡ lose_refusal object self.old }
        ensures ok { OnOk result (self.new ≡ without_copies self.old object) }
        ensures err { OnErr result (self.new ≡ self.old) }
    {
        lose(self, object)
    }
}
