// The ledgers of a run: opened with its seats, counted in, and closed with what the seats hold.

ghost use Rattle.std.specs.Prelude.{◌≡◌, ◌≤◌, ◌<◌, IfOk, Some, length};
ghost use Rattle.event_log.specs.Laws.{nothing};
ghost use Rattle.seat_books.specs.Holdings.{SameParts, holding};
ghost use Rattle.seat_books.specs.Seats.{AreParts, book_of, new_seats, sums, with_counted, with_more};
ghost use Rattle.seat_books.specs.Tallies.{totals_in};

use crate::account::{Blanks, Books};
use crate::pots::Pots;
use crate::seat::Seat;
use crate::tally::Tally;
use crate::watching::Watching;
use std::alloc::{AllocError, Global};
use std::marker::{Model, PhantomData};
use std::sync::ledger::Ledger;

/// The four ledgers to which all seats add, and the four further ones to which the watched seat alone adds; seen as their totals.
#[derive(Drop)]
pub struct Ledgers<
    P: Watching,
    E: Ledger,
    G: Ledger,
    C: Ledger,
    J: Ledger,
    V: Ledger,
    H: Ledger,
    D: Ledger,
    M: Ledger,
> {
    all: Books<E, G, C, J>,
    further: Books<V, H, D, M>,
    watched: u8,
    name: PhantomData<P>,
}

impl<
    P: Watching,
    E: Ledger,
    G: Ledger,
    C: Ledger,
    J: Ledger,
    V: Ledger,
    H: Ledger,
    D: Ledger,
    M: Ledger,
> Model for Ledgers<P, E, G, C, J, V, H, D, M> {
    ghost use Rattle.std.specs.Prelude.{◌≡◌};
    ghost use Rattle.seat_books.specs.Seats.{LedgersOf, ledgers_of};

    ghost Value = { LedgersOf };

    ghost view = { λ l. ledgers_of l.all l.further };

    ghost invariant = { λ l. (l.watched ≡ P.watched) × (V.parts ≡ 1) };
}

/// A seat for each number from 1 on, with an empty book.
#[tactic(auto, using(crate::proofs::Splitting::one_more_seat, crate::proofs::Splitting::parts_next, crate::proofs::Splitting::further_parts_next))]
fn split_all<
    P: Watching,
    E: Ledger,
    G: Ledger,
    C: Ledger,
    J: Ledger,
    V: Ledger,
    H: Ledger,
    D: Ledger,
    M: Ledger,
>(
    alloc: Global,
    pots: Pots<E, G, C, J, V, H, D, M>,
    n: u8,
    watched: u8,
) -> Result<Vec<Seat<P, E, G, C, J, V, H, D, M>>, AllocError>
    requires few { n ≤ 8 }
    requires watched { (watched ≡ P.watched) × (1 ≤ watched) × (watched ≤ n) }
    requires parts { AreParts n pots.all.parts × (pots.further.parts ≡ 1) }
    requires seats { n ≡ P.seats }
    requires empty { (pots.all.book ≡ nothing) × (pots.further.book ≡ nothing) }
    ensures { IfOk result (λ v. v.items ≡ new_seats 1 n) }
{
    let mut pots = pots;
    let mut seats = Vec::new(alloc);
    for turn in 0..n {
        seats.push(pots.split(turn + 1, watched))?;
    }
    Ok(seats)
}

impl<
    P: Watching,
    E: Ledger,
    G: Ledger,
    C: Ledger,
    J: Ledger,
    V: Ledger,
    H: Ledger,
    D: Ledger,
    M: Ledger,
> Ledgers<P, E, G, C, J, V, H, D, M> {
    /// Opens the ledgers of `n` seats, numbered from 1, whose books are empty; the one of the number `watched` is watched.
    pub fn open(
        alloc: Global,
        blanks: Blanks,
        further: Blanks,
        n: u8,
        watched: u8,
    ) -> Result<(Self, Vec<Seat<P, E, G, C, J, V, H, D, M>>), AllocError>
        requires few { n ≤ 8 }
        requires seats { n ≡ P.seats }
        requires watched { (watched ≡ P.watched) × (1 ≤ watched) × (watched ≤ n) }
        requires parts { AreParts n E.parts × SameParts E.parts G.parts C.parts J.parts }
        requires further_parts { (V.parts ≡ 1) × SameParts V.parts H.parts D.parts M.parts }
        requires events { (blanks.events.name ≡ E.name) × (blanks.events.parts ≡ E.parts) }
        requires given { (blanks.given.name ≡ G.name) × (blanks.given.parts ≡ G.parts) }
        requires commits { (blanks.commits.name ≡ C.name) × (blanks.commits.parts ≡ C.parts) }
        requires committed { (blanks.committed.name ≡ J.name) × (blanks.committed.parts ≡ J.parts) }
        requires further_events { (further.events.name ≡ V.name) × (further.events.parts ≡ V.parts) }
        requires further_given { (further.given.name ≡ H.name) × (further.given.parts ≡ H.parts) }
        requires further_commits { (further.commits.name ≡ D.name) × (further.commits.parts ≡ D.parts) }
        requires further_committed { (further.committed.name ≡ M.name) × (further.committed.parts ≡ M.parts) }
        ensures ledgers { IfOk result (λ r. (r.0.all ≡ nothing) × (r.0.watched ≡ nothing)) }
        ensures seats { IfOk result (λ r. r.1.items ≡ new_seats 1 n) }
    {
        let (all, all_shares) = Books::<E, G, C, J>::open(blanks);
        let (further, further_shares) = Books::<V, H, D, M>::open(further);
        let pots = Pots {
            all: all_shares,
            further: further_shares,
        };
        let seats = split_all(alloc, pots, n, watched)?;
        let ledgers = Ledgers {
            all,
            further,
            watched,
            name: PhantomData,
        };
        Ok((ledgers, seats))
    }

    /// Counts so much more in the seat's book.
    pub fn count(&mut self, seat: &mut Seat<P, E, G, C, J, V, H, D, M>, more: Tally)
        ensures ledgers { self.new ≡ with_counted P.watched seat.old.number (totals_in more) self.old }
        ensures seat { seat.new ≡ with_more (totals_in more) seat.old }
    {
        seat.count(&mut self.all, &mut self.further, self.watched, more);
    }

    /// Changes nothing, and shows of pots of all parts that they hold the totals.
    fn audit(&mut self, pots: Pots<E, G, C, J, V, H, D, M>)
        requires { (pots.all.parts ≡ E.parts) × (pots.further.parts ≡ 1) }
        ensures same { self.new ≡ self.old }
        ensures all { pots.all.book ≡ self.old.all }
        ensures further { pots.further.book ≡ self.old.watched }
    {
        let Pots {
            mut all,
            mut further,
        } = pots;
        self.all.audit(&mut all);
        self.further.audit(&mut further);
    }

    /// Shows, of all seats, that their books add up, number by number, to the totals of the ledgers of all, and that the watched one's book is the
    /// totals of the further ledgers.
    pub fn close(self, seats: Vec<Seat<P, E, G, C, J, V, H, D, M>>)
        requires some { 0 < length seats.items }
        requires all { AreParts (length seats.items) E.parts }
        ensures all { self.all ≡ sums seats.items }
        ensures watched { book_of P.watched seats.items ≡ Some self.watched }
    {
        let mut ledgers = self;
        let mut pots = Pots::gather(seats).unwrap();
        pots.all.bound();
        pots.further.bound();
        ledgers.audit(pots);
    }
}
