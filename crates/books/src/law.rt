// The laws of a seat's totals.

ghost use Rattle.books.specs.Laws.{LawOfSeatTotals};

/// The totals of one seat are sums over the events that came from it: each adds what it adds to the totals of the log.
pub fn law_of_seat_totals()
    ensures { LawOfSeatTotals }
{}
