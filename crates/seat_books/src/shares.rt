// Parts of four ledgers, split and merged, with what they count.

ghost use Rattle.std.specs.Prelude.{◌≡◌, ◌+◌, ◌≤◌};
ghost use Rattle.event_log.specs.Laws.{nothing};
ghost use Rattle.seat_books.specs.Holdings.{holding, together};

use std::marker::Model;
use std::sync::ledger::{Ledger, Share};

/// As many parts of each of four ledgers, and what these count in their totals.
#[derive(Drop)]
pub struct Shares<E: Ledger, G: Ledger, C: Ledger, J: Ledger> {
    /// Parts of the ledger that counts events.
    pub(crate) events: Share<E>,
    /// Parts of the ledger that sums the numbers of the jobs that were given out.
    pub(crate) given: Share<G>,
    /// Parts of the ledger that counts the commits that were accepted.
    pub(crate) commits: Share<C>,
    /// Parts of the ledger that sums the numbers of their jobs.
    pub(crate) committed: Share<J>,
}

impl<E: Ledger, G: Ledger, C: Ledger, J: Ledger> Model for Shares<E, G, C, J> {
    ghost use Rattle.seat_books.specs.Holdings.{Holding, SameParts, holding, totals_at};

    ghost Value = { Holding };

    ghost view = { λ s. holding s.events.parts (totals_at s.events.amount s.given.amount s.commits.amount s.committed.amount) };

    ghost invariant = { λ s. SameParts s.events.parts s.given.parts s.commits.parts s.committed.parts };
}

impl<E: Ledger, G: Ledger, C: Ledger, J: Ledger> Shares<E, G, C, J> {
    /// Shares of no part, with nothing in them.
    fn empty(&mut self) -> Self
        ensures empty { result ≡ holding 0 nothing }
        ensures same { self.new ≡ self.old }
    {
        Shares {
            events: self.events.empty(),
            given: self.given.empty(),
            commits: self.commits.empty(),
            committed: self.committed.empty(),
        }
    }

    /// Adds these shares to it.
    pub(crate) fn merge(&mut self, other: Self)
        ensures sum { self.new ≡ together self.old other }
        ensures apart { self.new.parts ≤ E.parts }
    {
        let Shares {
            events,
            given,
            commits,
            committed,
        } = other;
        self.events.merge(events);
        self.given.merge(given);
        self.commits.merge(commits);
        self.committed.merge(committed);
    }

    /// Takes so many parts out of shares with nothing in them.
    pub(crate) fn split(&mut self, parts: u64) -> Self
        requires parts { parts ≤ self.old.parts }
        requires empty { self.old.book ≡ nothing }
        ensures taken { result ≡ holding parts nothing }
        ensures left { self.new.parts + parts ≡ self.old.parts }
        ensures empty { self.new.book ≡ nothing }
    {
        Shares {
            events: self.events.split_off(parts, 0),
            given: self.given.split_off(parts, 0),
            commits: self.commits.split_off(parts, 0),
            committed: self.committed.split_off(parts, 0),
        }
    }

    /// Changes nothing, and shows that no shares have more parts than the ledgers.
    pub(crate) fn bound(&mut self)
        ensures same { self.new ≡ self.old }
        ensures bound { self.new.parts ≤ E.parts }
    {
        let empty = self.empty();
        self.merge(empty);
    }
}
