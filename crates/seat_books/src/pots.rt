// What some seats hold together.

ghost use Rattle.std.specs.Prelude.{◌≡◌, ◌+◌, ◌≤◌, ◌<◌, ◌==◌, if◌then◌else◌, length, sum_by, IsSome, IfSome};
ghost use Rattle.event_log.specs.Laws.{nothing, plus};
ghost use Rattle.seat_books.specs.Holdings.{holding, together};
ghost use Rattle.seat_books.specs.Seats.{IsSeat, further_at, further_parts, parts_at, seat_at};

use crate::seat::Seat;
use crate::shares::Shares;
use crate::watching::Watching;
use std::marker::PhantomData;
use std::sync::ledger::Ledger;

/// What some seats hold together of the ledgers of all seats, and of the further ones.
#[derive(Drop)]
pub struct Pots<
    E: Ledger,
    G: Ledger,
    C: Ledger,
    J: Ledger,
    V: Ledger,
    H: Ledger,
    D: Ledger,
    M: Ledger,
> {
    /// Their parts of the ledgers of all seats.
    pub(crate) all: Shares<E, G, C, J>,
    /// Their parts of the further ledgers, of which the watched seat alone has one.
    pub(crate) further: Shares<V, H, D, M>,
}

impl<E: Ledger, G: Ledger, C: Ledger, J: Ledger, V: Ledger, H: Ledger, D: Ledger, M: Ledger> Pots<
    E,
    G,
    C,
    J,
    V,
    H,
    D,
    M,
> {
    fn of<P: Watching>(seat: Seat<P, E, G, C, J, V, H, D, M>) -> Self
        ensures all { result.all ≡ holding (parts_at P.watched seat.number) seat.book }
        ensures further { result.further ≡ further_at P.watched seat }
    {
        let Seat {
            number: _,
            shares,
            further,
            name: _,
        } = seat;
        Pots {
            all: shares,
            further,
        }
    }

    fn add<P: Watching>(&mut self, seat: Seat<P, E, G, C, J, V, H, D, M>)
        ensures all { self.new.all ≡ together self.old.all (holding (parts_at P.watched seat.number) seat.book) }
        ensures further { self.new.further ≡ together self.old.further (further_at P.watched seat) }
    {
        let Pots { all, further } = Pots::of(seat);
        self.all.merge(all);
        self.further.merge(further);
    }

    /// Takes what a seat of that number begins with.
    pub(crate) fn split<P: Watching>(
        &mut self,
        number: u8,
        watched: u8,
    ) -> Seat<P, E, G, C, J, V, H, D, M>
        requires watched { watched ≡ P.watched }
        requires within { IsSeat P.seats number }
        requires parts { parts_at watched number ≤ self.old.all.parts }
        requires further_parts { further_parts watched number ≤ self.old.further.parts }
        requires empty { (self.old.all.book ≡ nothing) × (self.old.further.book ≡ nothing) }
        ensures seat { result ≡ seat_at number nothing }
        ensures parts { self.new.all.parts + parts_at watched number ≡ self.old.all.parts }
        ensures further_parts { self.new.further.parts + further_parts watched number ≡ self.old.further.parts }
        ensures empty { (self.new.all.book ≡ nothing) × (self.new.further.book ≡ nothing) }
    {
        let parts = parts_at(watched, number);
        let further_parts = further_parts(watched, number);
        Seat {
            number,
            shares: self.all.split(parts),
            further: self.further.split(further_parts),
            name: PhantomData,
        }
    }

    /// All that the seats hold together, where there is one.
    pub(crate) fn gather<P: Watching>(seats: Vec<Seat<P, E, G, C, J, V, H, D, M>>) -> Option<Self>
        ensures some { 0 < length seats.items → IsSome result }
        ensures parts { IfSome result (λ p. p.all.parts ≡ sum_by (λ s. parts_at P.watched s.number) seats.items) }
        ensures events { IfSome result (λ p. p.all.book.events ≡ sum_by (λ s. s.book.events) seats.items) }
        ensures given { IfSome result (λ p. p.all.book.given ≡ sum_by (λ s. s.book.given) seats.items) }
        ensures commits { IfSome result (λ p. p.all.book.commits ≡ sum_by (λ s. s.book.commits) seats.items) }
        ensures committed { IfSome result (λ p. p.all.book.committed ≡ sum_by (λ s. s.book.committed) seats.items) }
        ensures further_parts { IfSome result (λ p. p.further.parts ≡ sum_by (λ s. further_parts P.watched s.number) seats.items) }
        ensures further_events { IfSome result (λ p. p.further.book.events ≡ sum_by (λ s. (further_at P.watched s).book.events) seats.items) }
        ensures further_given { IfSome result (λ p. p.further.book.given ≡ sum_by (λ s. (further_at P.watched s).book.given) seats.items) }
        ensures further_commits { IfSome result (λ p. p.further.book.commits ≡ sum_by (λ s. (further_at P.watched s).book.commits) seats.items) }
        ensures further_committed { IfSome result (λ p. p.further.book.committed ≡ sum_by (λ s. (further_at P.watched s).book.committed) seats.items) }
    {
        let mut seats = seats;
        let mut pots = Pots::of(seats.pop()?);
        while let Some(seat) = seats.pop() {
            pots.add(seat);
        }
        Some(pots)
    }
}

/// How many parts of the ledgers of all seats a seat has.
fn parts_at(watched: u8, number: u8) -> u64
    ensures { result ≡ parts_at watched number }
{
    if number == watched { 1 } else { 2 }
}

/// How many parts of the further ledgers a seat has.
fn further_parts(watched: u8, number: u8) -> u64
    ensures { result ≡ further_parts watched number }
{
    if number == watched { 1 } else { 0 }
}
