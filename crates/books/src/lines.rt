// The books of a log, written.

ghost use Rattle.std.specs.Prelude.{◌≡◌, ◌+◌, ◌*◌, ◌<◌, ◌≤◌, ◌^◌, ◌++◌, ◌∷◌, [], OnOk, IfOk, drop, length, string_bytes};
ghost use Rattle.event_log.specs.Events.{refused_next};
ghost use Rattle.books.specs.Lines.{book_line, book_lines};
ghost use Rattle.books.specs.SeatTotals.{seat_totals};
ghost use Rattle.books.specs.Summing.{added_by, counts_for, plus, sums_in, sums_of};

use log_entries::{Entry, Event};
use std::alloc::{AllocError, Global};

/// How many commits were accepted, and the sum of the numbers of their jobs.
#[derive(Clone, Copy, PartialEq, Eq, Debug)]
pub struct Committed {
    count: u64,
    sum: u128,
}

/// Whether a refusal stands at that place.
fn is_refused_at(log: &[Entry], place: usize) -> bool
    ensures { result ≡ refused_next (drop place log.now) }
{
    if place >= log.len() {
        return false;
    }
    matches!(log[place], Entry::Refused(_))
}

/// Whether an event of seat `s` counts for the seat.
fn counts_for(seat: u8, s: u8, refused: bool) -> bool
    ensures { result ≡ counts_for seat s refused }
{
    if refused {
        return false;
    }
    s == seat
}

/// The sums with what an event adds, if it counts.
fn with_event(so_far: Committed, event: Event, counts: bool) -> Committed
    requires { (so_far.count < 2 ^ 63) × (so_far.sum < 2 ^ 127) }
    ensures sums { sums_in result ≡ plus (sums_in so_far) (added_by event counts) }
    ensures few { (result.count ≤ so_far.count + 1) × (result.sum < so_far.sum + 2 ^ 64) }
{
    if !counts {
        return so_far;
    }
    match event {
        Event::Commit(job) => Committed {
            count: so_far.count + 1,
            sum: so_far.sum + u128::from(job),
        },
        _ => so_far,
    }
}

/// The sums of the accepted commits that came from the seat.
fn sums_of(log: &[Entry], seat: u8) -> Committed
    ensures { sums_in result ≡ sums_of seat log.now }
{
    let mut sums = Committed { count: 0, sum: 0 };
    for place in 0..log.len() {
        if let Entry::In { event, seat: s } = &log[place] {
            let refused = is_refused_at(log, place + 1);
            sums = with_event(sums, *event, counts_for(seat, *s, refused));
        }
    }
    sums
}

/// Writes the line of a seat from which a commit was accepted; of another seat nothing.
#[tactic(auto, using(crate::proofs::Committed::same_line))]
fn write_line(text: &mut String, log: &[Entry], seat: u8) -> Result<(), AllocError>
    ensures { OnOk result (string_bytes text.new ≡ string_bytes text.old ++ book_line seat (seat_totals seat log.now)) }
{
    let sums = sums_of(log, seat);
    if sums.count == 0 {
        return Ok(());
    }
    writeln!(text, "book {} {} {}", seat, sums.count, sums.sum)
}

/// A line `book S COUNT SUM` for each seat from 0 to 8 from which a commit was accepted, the least first: how many were, and the sum of the numbers of
/// their jobs.
#[tactic(auto, using(crate::proofs::Committed::no_lines, crate::proofs::Committed::one_line_more))]
pub fn book_lines(alloc: Global, log: &[Entry]) -> Result<String, AllocError>
    ensures { IfOk result (λ text. string_bytes text ≡ book_lines log.now) }
{
    let mut text = String::new(alloc);
    for seat in 0..9 {
        write_line(&mut text, log, seat)?;
    }
    Ok(text)
}
