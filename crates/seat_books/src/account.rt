// Four ledgers before they are opened, and their books, which have their totals.

ghost use Rattle.std.specs.Prelude.{◌≡◌, ◌≤◌, ◌<◌};
ghost use Rattle.event_log.specs.Laws.{nothing, plus};
ghost use Rattle.seat_books.specs.Holdings.{SameParts, holding, with_added};
ghost use Rattle.seat_books.specs.Tallies.{totals_in};

use crate::shares::Shares;
use crate::tally::Tally;
use std::marker::Model;
use std::sync::ledger::{Blank, Book, Ledger};

/// Four ledgers before they are opened.
#[derive(Drop)]
pub struct Blanks {
    /// The ledger that will count events.
    pub events: Blank,
    /// The ledger that will sum the numbers of the jobs that were given out.
    pub given: Blank,
    /// The ledger that will count the commits that were accepted.
    pub commits: Blank,
    /// The ledger that will sum the numbers of their jobs.
    pub committed: Blank,
}

impl Blanks {
    /// New ledgers, of so many parts.
    pub fn new(parts: u64) -> Blanks
        ensures events { result.events.parts ≡ parts }
        ensures given { result.given.parts ≡ parts }
        ensures commits { result.commits.parts ≡ parts }
        ensures committed { result.committed.parts ≡ parts }
    {
        Blanks {
            events: Blank::new(parts),
            given: Blank::new(parts),
            commits: Blank::new(parts),
            committed: Blank::new(parts),
        }
    }
}

/// The books of four ledgers of as many parts, seen as their totals.
#[derive(Drop)]
pub struct Books<E: Ledger, G: Ledger, C: Ledger, J: Ledger> {
    events: Book<E>,
    given: Book<G>,
    commits: Book<C>,
    committed: Book<J>,
}

impl<E: Ledger, G: Ledger, C: Ledger, J: Ledger> Model for Books<E, G, C, J> {
    ghost use Rattle.event_log.specs.Books.{Totals};
    ghost use Rattle.seat_books.specs.Holdings.{SameParts, totals_at};

    ghost Value = { Totals };

    ghost view = { λ b. totals_at b.events.total b.given.total b.commits.total b.committed.total };

    ghost invariant = { λ b. SameParts E.parts G.parts C.parts J.parts };
}

impl<E: Ledger, G: Ledger, C: Ledger, J: Ledger> Books<E, G, C, J> {
    /// The books of ledgers that are opened, and all their parts.
    pub(crate) fn open(blanks: Blanks) -> (Self, Shares<E, G, C, J>)
        requires events { (blanks.events.name ≡ E.name) × (blanks.events.parts ≡ E.parts) }
        requires given { (blanks.given.name ≡ G.name) × (blanks.given.parts ≡ G.parts) }
        requires commits { (blanks.commits.name ≡ C.name) × (blanks.commits.parts ≡ C.parts) }
        requires committed { (blanks.committed.name ≡ J.name) × (blanks.committed.parts ≡ J.parts) }
        requires same { SameParts E.parts G.parts C.parts J.parts }
        ensures books { result.0 ≡ nothing }
        ensures shares { result.1 ≡ holding E.parts nothing }
    {
        let Blanks {
            events,
            given,
            commits,
            committed,
        } = blanks;
        let (events, all_events) = events.open::<E>();
        let (given, all_given) = given.open::<G>();
        let (commits, all_commits) = commits.open::<C>();
        let (committed, all_committed) = committed.open::<J>();
        let books = Books {
            events,
            given,
            commits,
            committed,
        };
        let shares = Shares {
            events: all_events,
            given: all_given,
            commits: all_commits,
            committed: all_committed,
        };
        (books, shares)
    }

    /// Counts so much more in the shares.
    pub(crate) fn add(&mut self, shares: &mut Shares<E, G, C, J>, more: Tally)
        requires { 0 < shares.old.parts }
        ensures books { self.new ≡ plus self.old (totals_in more) }
        ensures shares { shares.new ≡ with_added (totals_in more) shares.old }
    {
        self.events.add(&mut shares.events, more.events);
        self.given.add(&mut shares.given, more.given);
        self.commits.add(&mut shares.commits, more.commits);
        self.committed.add(&mut shares.committed, more.committed);
    }

    /// Changes nothing, and shows that shares of all parts have the totals.
    pub(crate) fn audit(&mut self, shares: &mut Shares<E, G, C, J>)
        requires { shares.old.parts ≡ E.parts }
        ensures books { self.new ≡ self.old }
        ensures shares { shares.new ≡ shares.old }
        ensures total { shares.old.book ≡ self.old }
    {
        self.events.audit(&mut shares.events);
        self.given.audit(&mut shares.given);
        self.commits.audit(&mut shares.commits);
        self.committed.audit(&mut shares.committed);
    }
}
