// The first of some lists of events, and how many there are.

ghost use Rattle.std.specs.Prelude.{◌≡◌, ◌≤◌, ◌+◌, ◌^◌, ◌∷◌, [], IfOk, OnOk, OnErr};
ghost use Rattle.fault_lists.specs.Firsts.{Adds};

use faulted_history::FaultList;
use log_entries::Event;
use sequence::{Seq, refused_growth};
use std::alloc::{AllocError, Global};

/// The first of some lists of events with a fault, and how many there are: their number grows with events times objects, so that those behind aren't kept.
#[derive(Drop)]
pub struct FirstLists {
    /// The first lists.
    pub first: Seq<FaultList>,
    /// How many are kept at most.
    pub most: usize,
    /// How many there are.
    pub count: usize,
}

/// One more than that. There is no number of lists past 2^64 - 1.
fn next_count(alloc: Global, count: usize) -> Result<usize, AllocError>
    ensures number { IfOk result (λ n. n ≡ count + 1) }
    ensures refused { OnErr result (2 ^ 64 ≤ count + 1) }
{
    match count.checked_add(1) {
        Some(next) => Ok(next),
        None => Err(refused_growth(alloc)),
    }
}

impl FirstLists {
    /// No list yet.
    pub fn new(alloc: Global, most: usize) -> FirstLists
        ensures { result ≡ record { first = []; most = most; count = 0 } }
    {
        FirstLists {
            first: Seq::new(alloc),
            most,
            count: 0,
        }
    }

    /// Adds a list, which is kept where fewer are than may be. An error is want of memory, and leaves all as it was.
    #[tactic(auto, using(crate::proofs::Firsts::kept, crate::proofs::Firsts::counted))]
    pub fn add(
        &mut self,
        alloc: Global,
        place: usize,
        fault: Event,
        notice: Option<Event>,
    ) -> Result<(), AllocError>
        ensures done { OnOk result (Adds self.old (record { place = place; fault = fault; notice = notice } ∷ []) self.new) }
        ensures err { OnErr result (self.new ≡ self.old) }
    {
        let count = next_count(alloc, self.count)?;
        if self.first.len() < self.most {
            self.first.push(FaultList {
                place,
                fault,
                notice,
            })?;
        }
        self.count = count;
        Ok(())
    }
}
