// A run under a lock, with the ledgers of its seats: four of all, and four further ones of the watched seat.

ghost use Rattle.std.specs.Prelude.{◌≡◌, ◌≤◌, ◌<◌, true, IfOk, IfErr, IsOk, Some, length};
ghost use Rattle.books.specs.SeatTotals.{seat_totals};
ghost use Rattle.event_log.specs.Books.{totals_of};
ghost use Rattle.event_log.specs.Entries.{Claim, Commit};
ghost use Rattle.event_log.specs.Laws.{nothing};
ghost use Rattle.log_entries.specs.declared.refusal.Refusal.TheVariants.{NoMemory};
ghost use Rattle.run_paths.specs.of_protocol_board.Cores.{reply_of};
ghost use Rattle.seat_books.specs.Holdings.{SameParts};
ghost use Rattle.seat_books.specs.Seats.{AreParts, book_of, new_seats, sums, with_more};
ghost use Rattle.seats.specs.Counted.{IsFresh, counted};
ghost use Rattle.seats.specs.Ends.{IsEndBeside, size_of};
ghost use Rattle.seats.specs.Seated.{AreFrom};
ghost use Rattle.seats.specs.Turns.{or_first, turn_counted};
ghost use Rattle.seats.specs.Views.{told_of};

use crate::end::Ended;
use crate::gate::Gate;
use crate::run_name::RunName;
use crate::seen_job::{SeenDone, SeenJob};
use crate::seen_turning::SeenTurning;
use crate::tally::{tally_of, turn_tally};
use crate::turn::Turn;
use crate::turning::Turning;
use event_files::RunPlan;
use ids::WorkerId;
use job_tickets::OpenedTickets;
use log_entries::Event;
use run_paths::{Board, Reply};
use seat_books::{Blanks, Ledgers, Seat};
use segment::{Done, Job, ScriptName};
use shared_log::{LogPrefix, OpenedLog};
use std::alloc::{AllocError, Global};
use std::marker::Model;
use std::sync::ledger::Ledger;
use std::sync::{Mutex, Wait};

/// The run `P`, which threads share, each with its seat, of which one is watched; seen as the number of the seats.
#[derive(Drop)]
pub struct Shared<
    S: ScriptName,
    P: RunName,
    E: Ledger,
    G: Ledger,
    C: Ledger,
    J: Ledger,
    V: Ledger,
    H: Ledger,
    D: Ledger,
    M: Ledger,
> {
    locked: Mutex<Locked<S, P, E, G, C, J, V, H, D, M>>,
    seats: usize,
}

impl<
    S: ScriptName,
    P: RunName,
    E: Ledger,
    G: Ledger,
    C: Ledger,
    J: Ledger,
    V: Ledger,
    H: Ledger,
    D: Ledger,
    M: Ledger,
> Model for Shared<S, P, E, G, C, J, V, H, D, M> {
    ghost use Rattle.std.specs.Prelude.{◌≡◌, ◌≤◌, ℕ};
    ghost use Rattle.seat_books.specs.Seats.{AreParts};

    ghost Value = { ℕ };

    ghost view = { λ s. s.seats };

    ghost invariant = { λ s. (1 ≤ s.seats) × (s.seats ≡ P.seats) × AreParts s.seats E.parts };
}

/// The run, and the ledgers of its seats.
#[derive(Drop)]
struct Locked<
    S: ScriptName,
    P: RunName,
    E: Ledger,
    G: Ledger,
    C: Ledger,
    J: Ledger,
    V: Ledger,
    H: Ledger,
    D: Ledger,
    M: Ledger,
> {
    turning: SeenTurning<S, P>,
    ledgers: Ledgers<P, E, G, C, J, V, H, D, M>,
    ghost all_add_up: { totals_of turning.run.log ≡ ledgers.all },
    ghost watched_add_up: { seat_totals P.watched turning.run.log ≡ ledgers.watched },
    ghost seated: { AreFrom P.seats turning.run.log },
}

impl<
    S: ScriptName,
    P: RunName,
    E: Ledger,
    G: Ledger,
    C: Ledger,
    J: Ledger,
    V: Ledger,
    H: Ledger,
    D: Ledger,
    M: Ledger,
> Locked<S, P, E, G, C, J, V, H, D, M> {
    /// One event from the seat to an open run, counted in its book.
    fn apply(
        &mut self,
        alloc: Global,
        seat: &mut Seat<P, E, G, C, J, V, H, D, M>,
        event: Event,
        done: Option<Done<S>>,
    ) -> Reply<S>
        requires open { P.is_open ≡ true }
        ensures { seat.new ≡ with_more (counted event (reply_of result)) seat.old }
    {
        let Locked { turning, ledgers } = self;
        let told = turning.apply(alloc, event, seat.number(), done);
        let more = tally_of(&event, &told);
        ledgers.count(seat, more);
        told
    }

    /// Commits what was done on a job that the run gave out, counted in the seat's book.
    fn commit<R: Wait>(
        &mut self,
        rt: &R,
        alloc: Global,
        seat: &mut Seat<P, E, G, C, J, V, H, D, M>,
        done: SeenDone<S, P>,
    ) -> Reply<S>
        ensures { seat.new ≡ with_more (counted (Commit done.job.number) (reply_of result)) seat.old }
    {
        let Locked { turning, ledgers } = self;
        let job = done.number();
        let place = seat.number();
        let told = turning.commit(rt, alloc, place, done);
        let more = tally_of(&Event::Commit(job), &told);
        ledgers.count(seat, more);
        told
    }

    /// Takes the seat's turn, and counts in its book what came of it.
    fn turn<R: Wait>(
        &mut self,
        rt: &R,
        alloc: Global,
        seat: &mut Seat<P, E, G, C, J, V, H, D, M>,
    ) -> Turn<SeenJob<S, P>>
        ensures { seat.new ≡ with_more (turn_counted (told_of result)) seat.old }
    {
        let Locked { turning, ledgers } = self;
        let told = turning.turn(rt, alloc, seat.number());
        let more = turn_tally(&told);
        ledgers.count(seat, more);
        told
    }

    /// Gives the run up for want of memory, unless it was given up before.
    fn give_up(&mut self)
        ensures { self.new.turning ≡ record self.old.turning { given_up = or_first self.old.turning.given_up NoMemory } }
    {
        self.turning.give_up();
    }

    /// The run, where all seats are back: their books add up, number by number, to the totals of its log, and the watched one's is what came from that
    /// seat.
    fn gathered(self, seats: Vec<Seat<P, E, G, C, J, V, H, D, M>>) -> Turning<S, P>
        requires some { 0 < length seats.items }
        requires all { AreParts (length seats.items) E.parts }
        ensures same { result ≡ self.turning }
        ensures adds_up { totals_of result.run.log ≡ sums seats.items }
        ensures watched { book_of P.watched seats.items ≡ Some (seat_totals P.watched result.run.log) }
        ensures seated { AreFrom P.seats result.run.log }
    {
        let Locked { turning, ledgers } = self;
        ledgers.close(seats);
        turning.into_turning()
    }
}

/// A run that begins, with ledgers in which nothing is.
fn begin<
    S: ScriptName,
    P: RunName,
    E: Ledger,
    G: Ledger,
    C: Ledger,
    J: Ledger,
    V: Ledger,
    H: Ledger,
    D: Ledger,
    M: Ledger,
>(
    alloc: Global,
    ledgers: Ledgers<P, E, G, C, J, V, H, D, M>,
    opened: OpenedLog,
    tickets: OpenedTickets<Job<S>>,
    board: Board<S>,
    plan: RunPlan,
) -> Locked<S, P, E, G, C, J, V, H, D, M>
    requires log { opened.seen.book ≡ P.book }
    requires tickets { tickets.keeper.table_id ≡ P.table }
    requires fresh { IsFresh board }
    requires named { (plan.lines ≡ P.plan) × (size_of board ≡ P.size) }
    requires empty { (ledgers.all ≡ nothing) × (ledgers.watched ≡ nothing) }
{
    let (log, seen) = opened.named::<P>();
    Locked {
        turning: SeenTurning::new(
            Turning::new(alloc, board, plan),
            log,
            seen,
            tickets.named::<P>(),
        ),
        ledgers,
    }
}

impl<
    S: ScriptName,
    P: RunName,
    E: Ledger,
    G: Ledger,
    C: Ledger,
    J: Ledger,
    V: Ledger,
    H: Ledger,
    D: Ledger,
    M: Ledger,
> Shared<S, P, E, G, C, J, V, H, D, M> {
    /// Shares a run that begins, beside a plan, among `n` seats, numbered from 1, whose books are empty; the one of the number `watched` is watched, and
    /// alone adds to the further ledgers. On want of memory the run is dropped.
    pub fn new(
        alloc: Global,
        blanks: Blanks,
        further: Blanks,
        opened: OpenedLog,
        tickets: OpenedTickets<Job<S>>,
        board: Board<S>,
        plan: RunPlan,
        n: u8,
        watched: u8,
    ) -> Result<(Self, Vec<Seat<P, E, G, C, J, V, H, D, M>>), AllocError>
        requires few { n ≤ 8 }
        requires seats { n ≡ P.seats }
        requires watched { (watched ≡ P.watched) × (1 ≤ watched) × (watched ≤ n) }
        requires log { opened.seen.book ≡ P.book }
        requires tickets { tickets.keeper.table_id ≡ P.table }
        requires fresh { IsFresh board }
        requires named { (plan.lines ≡ P.plan) × (size_of board ≡ P.size) }
        requires parts { AreParts n E.parts × SameParts E.parts G.parts C.parts J.parts }
        requires further_parts { (V.parts ≡ 1) × SameParts V.parts H.parts D.parts M.parts }
        requires events { (blanks.events.name ≡ E.name) × (blanks.events.parts ≡ E.parts) }
        requires given { (blanks.given.name ≡ G.name) × (blanks.given.parts ≡ G.parts) }
        requires commits { (blanks.commits.name ≡ C.name) × (blanks.commits.parts ≡ C.parts) }
        requires committed { (blanks.committed.name ≡ J.name) × (blanks.committed.parts ≡ J.parts) }
        requires further_events { (further.events.name ≡ V.name) × (further.events.parts ≡ V.parts) }
        requires further_given { (further.given.name ≡ H.name) × (further.given.parts ≡ H.parts) }
        requires further_commits { (further.commits.name ≡ D.name) × (further.commits.parts ≡ D.parts) }
        requires further_committed { (further.committed.name ≡ M.name) × (further.committed.parts ≡ M.parts) }
        ensures shared { IfOk result (λ r. r.0 ≡ n) }
        ensures seats { IfOk result (λ r. r.1.items ≡ new_seats 1 n) }
    {
        let made = Ledgers::<P, E, G, C, J, V, H, D, M>::open(alloc, blanks, further, n, watched);
        let (ledgers, seats) = match made {
            Ok(made) => made,
            Err(error) => {
                drop(board);
                return Err(error);
            }
        };
        let locked = begin::<S, P, E, G, C, J, V, H, D, M>(
            alloc, ledgers, opened, tickets, board, plan,
        );
        let shared = Shared {
            locked: Mutex::new(locked),
            seats: usize::from(n),
        };
        Ok((shared, seats))
    }

    /// Gives the board where all seats are there, and else hands both back. The seats' books add up, number by number, to the totals of the
    /// board's log; the watched seat's book is exactly the totals of what came from that seat; and each event of the log came from a seat of so many.
    pub fn close(
        self,
        seats: Vec<Seat<P, E, G, C, J, V, H, D, M>>,
    ) -> Result<Board<S>, (Self, Vec<Seat<P, E, G, C, J, V, H, D, M>>)>
        ensures adds_up { IfOk result (λ b. totals_of b.log ≡ sums seats.items) }
        ensures watched { IfOk result (λ b. book_of P.watched seats.items ≡ Some (seat_totals P.watched b.log)) }
        ensures seated { IfOk result (λ b. AreFrom self b.log) }
        ensures all { length seats.items ≡ self → IsOk result }
        ensures back { IfErr result (λ e. (e.0 ≡ self) × (e.1 ≡ seats)) }
    {
        if seats.len() != self.seats {
            return Err((self, seats));
        }
        let Shared { locked, seats: _ } = self;
        Ok(locked.into_inner().gathered(seats).into_board())
    }

    /// How the run ended, where all seats are there and it is at its end; else both are handed back. The seats' books add up, number by number, to
    /// the totals of the log, and the watched one's is what came from that seat.
    pub fn end(
        self,
        alloc: Global,
        seats: Vec<Seat<P, E, G, C, J, V, H, D, M>>,
    ) -> Result<Ended<S>, (Self, Vec<Seat<P, E, G, C, J, V, H, D, M>>)>
        ensures ended { IfOk result (IsEndBeside S.script P.is_open seats.items self P.watched P.plan P.size) }
        ensures back { IfErr result (λ e. (e.0 ≡ self) × (e.1 ≡ seats)) }
    {
        if seats.len() != self.seats {
            return Err((self, seats));
        }
        let Shared { locked, seats: n } = self;
        let locked = locked.into_inner();
        if !locked.turning.is_at_end(alloc) {
            let shared = Shared {
                locked: Mutex::new(locked),
                seats: n,
            };
            return Err((shared, seats));
        }
        Ok(locked.gathered(seats).into_end())
    }

    /// Applies one event from the seat to an open run, with nothing done on a job, under the lock, and counts it in the seat's book. The log names the
    /// seat. To any other run turns alone apply events, but for the commits of its jobs: see `turn` and `commit_own`.
    pub fn step<R: Wait>(
        &self,
        rt: &R,
        alloc: Global,
        seat: &mut Seat<P, E, G, C, J, V, H, D, M>,
        event: Event,
    ) -> Reply<S>
        requires { P.is_open ≡ true }
        ensures { seat.new ≡ with_more (counted event (reply_of result)) seat.old }
    {
        self.locked.lock(rt).apply(alloc, seat, event, None)
    }

    /// One turn of the seat, under the lock: see `Turning::turn`. An event that it applies is counted in the seat's book.
    pub fn turn<R: Wait>(
        &self,
        rt: &R,
        alloc: Global,
        seat: &mut Seat<P, E, G, C, J, V, H, D, M>,
    ) -> Turn<SeenJob<S, P>>
        ensures { seat.new ≡ with_more (turn_counted (told_of result)) seat.old }
    {
        self.locked.lock(rt).turn(rt, alloc, seat)
    }

    /// Whether there is something to do for another seat while this one runs a job: a turn would apply an event (`Turning::has_turn`, under the lock).
    /// Where there is no other seat there is nothing.
    pub fn has_turn<R: Wait>(&self, rt: &R, alloc: Global) -> bool {
        if self.seats < 2 {
            return false;
        }
        self.locked.lock(rt).turning.has_turn(alloc)
    }

    /// How much of the log all seats may have seen, for the frames that one keeps.
    pub fn seen<R: Wait>(&self, rt: &R) -> LogPrefix<P> {
        self.locked.lock(rt).turning.seen()
    }

    /// Gives the run up for want of memory, unless it was given up before: `Turning::give_up` under the lock, so that each later turn is at its end.
    pub fn give_up<R: Wait>(&self, rt: &R) {
        self.locked.lock(rt).give_up();
    }

    /// Shows the log so far to the gate, under the lock.
    pub fn show<K: Gate, R: Wait>(&self, rt: &R, gate: &K) {
        gate.look(self.locked.lock(rt).turning.log());
    }

    /// Claims the worker's next part of its task, of an open run, and counts it in the seat's book. The reply is the board's: the job that is given out,
    /// or why there is none.
    pub fn claim<R: Wait>(
        &self,
        rt: &R,
        alloc: Global,
        seat: &mut Seat<P, E, G, C, J, V, H, D, M>,
        worker: WorkerId,
    ) -> Reply<S>
        requires { P.is_open ≡ true }
        ensures { seat.new ≡ with_more (counted (Claim worker) (reply_of result)) seat.old }
    {
        self.step(rt, alloc, seat, Event::Claim(worker))
    }

    /// Commits what was done on a job that the run gave out, and counts it in the seat's book. The reply is the board's: `Ok`, or why the commit is
    /// refused. The cost doesn't grow with what the job was answered.
    pub fn commit_own<R: Wait>(
        &self,
        rt: &R,
        alloc: Global,
        seat: &mut Seat<P, E, G, C, J, V, H, D, M>,
        done: SeenDone<S, P>,
    ) -> Reply<S>
        ensures { seat.new ≡ with_more (counted (Commit done.job.number) (reply_of result)) seat.old }
    {
        self.locked.lock(rt).commit(rt, alloc, seat, done)
    }

    /// Commits what was done on any job, to an open run, and counts it in the seat's book. The reply is the board's: `Ok`, or why the commit is
    /// refused.
    pub fn commit<R: Wait>(
        &self,
        rt: &R,
        alloc: Global,
        seat: &mut Seat<P, E, G, C, J, V, H, D, M>,
        done: Done<S>,
    ) -> Reply<S>
        requires { P.is_open ≡ true }
        ensures { seat.new ≡ with_more (counted (Commit done.job.number) (reply_of result)) seat.old }
    {
        let event = Event::Commit(done.job().number());
        self.locked.lock(rt).apply(alloc, seat, event, Some(done))
    }
}
