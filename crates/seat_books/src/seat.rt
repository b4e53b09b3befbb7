// One thread's seat: its number and its book, and how it counts what its calls did.

ghost use Rattle.std.specs.Prelude.{◌≡◌};
ghost use Rattle.event_log.specs.Laws.{plus};
ghost use Rattle.books.specs.Laws.{from_seat};
ghost use Rattle.seat_books.specs.Seats.{IsSeat, with_more};
ghost use Rattle.seat_books.specs.Tallies.{totals_in};

use crate::account::Books;
use crate::shares::Shares;
use crate::tally::Tally;
use crate::watching::Watching;
use std::marker::{Model, PhantomData};
use std::sync::ledger::Ledger;

/// One thread's seat: its number, which the log's events name, and its book of what its calls did: the events, the numbers of the jobs
/// that it was given, the commits that were accepted, and the numbers of their jobs. The watched seat alone has a part of the further ledgers.
#[derive(Drop)]
pub struct Seat<
    P: Watching,
    E: Ledger,
    G: Ledger,
    C: Ledger,
    J: Ledger,
    V: Ledger,
    H: Ledger,
    D: Ledger,
    M: Ledger,
> {
    /// Counted from 1.
    pub(crate) number: u8,
    /// Its parts of the ledgers of all seats.
    pub(crate) shares: Shares<E, G, C, J>,
    /// Its parts of the further ledgers: none, but of the watched seat.
    pub(crate) further: Shares<V, H, D, M>,
    /// Nothing at run time: its type says which seat is watched.
    pub(crate) name: PhantomData<P>,
}

impl<
    P: Watching,
    E: Ledger,
    G: Ledger,
    C: Ledger,
    J: Ledger,
    V: Ledger,
    H: Ledger,
    D: Ledger,
    M: Ledger,
> Model for Seat<P, E, G, C, J, V, H, D, M> {
    ghost use Rattle.std.specs.Prelude.{◌≡◌};
    ghost use Rattle.seat_books.specs.Seats.{IsSeat, SeatOf, further_at, parts_at, seat_at};

    ghost Value = { SeatOf };

    ghost view = { λ s. seat_at s.number s.shares.book };

    ghost invariant = { λ s. (s.shares.parts ≡ parts_at P.watched s.number) × (s.further ≡ further_at P.watched (seat_at s.number s.shares.book))
        × IsSeat P.seats s.number };
}

impl<
    P: Watching,
    E: Ledger,
    G: Ledger,
    C: Ledger,
    J: Ledger,
    V: Ledger,
    H: Ledger,
    D: Ledger,
    M: Ledger,
> Seat<P, E, G, C, J, V, H, D, M> {
    /// Its number, counted from 1.
    pub fn number(&self) -> u8
        ensures number { result ≡ self.now.number }
        ensures within { IsSeat P.seats result }
    {
        self.number
    }

    /// Counts so much more in its book, and in the further ledgers, if it is the watched seat.
    #[tactic(auto, using(crate::proofs::Watched::here, crate::proofs::Watched::elsewhere, crate::proofs::Watched::some_part))]
    pub(crate) fn count(
        &mut self,
        all: &mut Books<E, G, C, J>,
        further: &mut Books<V, H, D, M>,
        watched: u8,
        more: Tally,
    )
        requires { watched ≡ P.watched }
        ensures all { all.new ≡ plus all.old (totals_in more) }
        ensures further { further.new ≡ plus further.old (from_seat P.watched self.old.number (totals_in more)) }
        ensures seat { self.new ≡ with_more (totals_in more) self.old }
    {
        all.add(&mut self.shares, more);
        if self.number != watched {
            return;
        }
        further.add(&mut self.further, more);
    }
}
