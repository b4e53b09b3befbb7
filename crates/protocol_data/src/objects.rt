// A worker's own objects, with an index of those that may be released.

ghost use Rattle.std.specs.Prelude.{◌≡◌, ◌++◌, ◌∷◌, [], ◌<◌, ◌≤◌, ◌^◌, OnErr, OnOk, length, slice_get, IfOk, Some, true};
ghost use Rattle.std.specs.Borrow.{Lends, sem};
ghost use Rattle.protocol_data.specs.Unneeded.{AllStay, Goes};
ghost use Rattle.protocol_data.specs.Lending.{LendsRow};

use crate::search::{
    Search, attend, first_to_go, is_looked_over, least, mark, nothing_seen, settle,
};
use crate::tables::Object;
use ids::AttemptId;
use indexmap::IndexMap;
use std::alloc::{AllocError, Global};
use std::marker::Model;

/// A worker's own objects, in birth order. Contracts see the list.
///
/// Each is kept under its serial. Beside them stands which of them may have come to be releasable. No contract of a method can name that: what it
/// saves is said by the functions of `search`, to which the methods hand on.
#[derive(Drop)]
pub struct Objects {
    rows: IndexMap<u64, Object>,
    search: Search,
}

impl Model for Objects {
    ghost use Rattle.std.specs.Prelude.{List};
    ghost use Rattle.std.specs.Coded.{codes};
    ghost use Rattle.ids.specs.Codes.{id_code};
    ghost use Rattle.log_entries.specs.of_held.Codes.{value_code, outcome_code, birth_code};
    ghost use Rattle.ids.specs.Codes.{attempt_code};
    ghost use Rattle.log_entries.specs.of_values.FaultCodes.{fault_code};
    ghost use Rattle.protocol_data.specs.declared.tables.Object.{Object};

    ghost Value = { List Object };

    ghost coded = { Prim.hlevel (codes, value_code, outcome_code, birth_code, id_code, attempt_code, fault_code) };

    ghost use Rattle.indexmap.specs.IndexMap.{keys, values};
    ghost use Rattle.protocol_data.specs.Serials.{AreSerials};
    ghost use Rattle.protocol_data.specs.Searches.{IsSearchedBy};

    ghost view = { λ o. values o.rows };

    ghost invariant = { λ o. AreSerials (keys o.rows) × IsSearchedBy (values o.rows) o.search };
}

impl Objects {
    /// The empty list.
    pub fn new(alloc: Global) -> Self
        ensures { result ≡ [] }
    {
        Objects {
            rows: IndexMap::new(alloc),
            search: nothing_seen(alloc),
        }
    }

    /// Makes room for so many more. On an error, which is want of memory, the list is as it was too.
    pub fn reserve(&mut self, more: usize) -> Result<(), AllocError>
        ensures { self.new ≡ self.old }
    {
        self.rows.reserve(more)
    }

    /// How many objects there are, which is less than 2^63.
    pub fn len(&self) -> usize
        ensures len { result ≡ length self.now }
        ensures bound { result < 2 ^ 63 }
    {
        self.rows.len()
    }

    /// The object at the place, counted from 0.
    pub fn row(&self, place: usize) -> &Object
        requires { place < length self.now }
        ensures { slice_get self.now place ≡ Some result.now }
    {
        &self.rows[place]
    }

    /// Adds an object at the end. On an error, which is want of memory, the list is as it was.
    pub fn push(&mut self, object: Object) -> Result<(), AllocError>
        ensures ok { OnOk result (self.new ≡ self.old ++ object ∷ []) }
        ensures err { OnErr result (self.new ≡ self.old) }
    {
        // What comes was never looked at.
        let end = self.rows.len();
        self.search.changed.push(false)?;
        self.search.seen = least(end, self.search.seen);
        match self.rows.insert(end as u64 + 1, object) {
            Ok(_) => Ok(()),
            Err(error) => {
                self.search.changed.remove_last();
                Err(error.into())
            }
        }
    }

    /// The object at the place, to be changed.
    pub fn row_mut(&mut self, place: usize) -> &mut Object
        requires { place < length self.old }
        ensures* lends { sem 𝓛 (LendsRow self.entry place result) }
        ensures value { slice_get self.old place ≡ Some result.now }
    {
        mark(&mut self.search.changed, place, self.search.seen);
        &mut self.rows[place]
    }

    /// From now on the objects of that attempt are kept, and of no other. Where it is known, with no look at the objects, that none is released while
    /// the attempt goes on, the answer is true, and there is nothing to settle.
    pub fn attend(&mut self, going_on: Option<AttemptId>) -> bool
        ensures same { self.new ≡ self.old }
        ensures rest { result ≡ true → AllStay self.new 0 (length self.new) going_on }
    {
        attend(&mut self.search, going_on);
        is_looked_over(&self.rows, &self.search, &going_on)
    }

    /// The first place from that one on whose object may be released, where the attempt goes on; or one behind the last.
    pub fn next_place(&self, from: usize, going_on: &Option<AttemptId>) -> usize
        ensures on { from ≤ result }
        ensures stay { AllStay self.now from result going_on.now }
        ensures goes { Goes self.now result going_on.now }
    {
        first_to_go(&self.rows, &self.search, from, going_on)
    }

    /// What was changed is looked at, so that no search need look at it again.
    pub fn settle(&mut self)
        ensures { self.new ≡ self.old }
    {
        settle(&self.rows, &mut self.search);
    }

    /// An equal list. An error is want of memory.
    #[tactic(auto, using(crate::proofs::Copying::one_more, crate::proofs::Copying::take_whole))]
    pub fn copy(&self, alloc: Global) -> Result<Objects, AllocError>
        ensures { IfOk result (λ xs. xs ≡ self.now) }
    {
        let mut copies = Objects::new(alloc);
        let count = self.len();
        for place in 0..count {
            let copy = self.row(place).copy(alloc)?;
            copies.push(copy)?;
        }
        Ok(copies)
    }
}
