// A run beside its plan, whose log its seats share, and the tickets of its jobs.

ghost use Rattle.std.specs.Prelude.{◌≡◌, [], true, Some, None};
ghost use mathlib.Core.List.{IsPrefix};
ghost use Rattle.event_log.specs.Books.{totals_of};
ghost use Rattle.event_log.specs.Entries.{Commit};
ghost use Rattle.event_log.specs.Laws.{plus};
ghost use Rattle.log_entries.specs.declared.refusal.Refusal.TheVariants.{NoMemory};
ghost use Rattle.run_paths.specs.of_protocol_board.Cores.{Answers, reply_of};
ghost use Rattle.seats.specs.Counted.{AddsFrom, counted};
ghost use Rattle.seats.specs.Ends.{IsOverBeside};
ghost use Rattle.seats.specs.Held.{given_behind};
ghost use Rattle.seats.specs.Seated.{StaysFrom};
ghost use Rattle.seats.specs.Turns.{TurnGivesOwn, Turned, choice, is_at_end, is_event, or_first, turn_counted};
ghost use Rattle.seats.specs.Views.{told_of};

use crate::run_name::RunName;
use crate::seen_job::{SeenDone, SeenJob};
use crate::seen_log::SeenLog;
use crate::turn::Turn;
use crate::turning::Turning;
use job_laws::law::{claims_give_jobs_out, jobs_stand};
use job_tickets::Tickets;
use log_entries::{Entry, Event};
use run_paths::Reply;
use segment::{Done, Job, ScriptName};
use shared_log::{LogPrefix, SharedLog};
use std::alloc::Global;
use std::marker::Model;
use std::sync::Wait;

/// The run `P` beside its plan, seen as that, its log as its seats share it, and the tickets of the jobs that turns gave out.
#[derive(Drop)]
pub struct SeenTurning<S: ScriptName, P: RunName> {
    turning: Turning<S, P>,
    log: SeenLog<P>,
    tickets: Tickets<Job<S>, P>,
}

impl<S: ScriptName, P: RunName> Model for SeenTurning<S, P> {
    ghost use Rattle.std.specs.Prelude.{◌≡◌, true};
    ghost use Rattle.std.specs.Coded.{codes};
    ghost use Rattle.ids.specs.Codes.{id_code};
    ghost use Rattle.held.specs.Codes.{value_code, outcome_code, birth_code};
    ghost use Rattle.ids.specs.Codes.{attempt_code};
    ghost use Rattle.values.specs.FaultCodes.{fault_code};
    ghost use Rattle.values.specs.contracts.value.RunValue as run_values;
    ghost use Rattle.seats.specs.Held.{StayOut};
    ghost use Rattle.seats.specs.Turns.{TurnState};

    ghost Value = { TurnState };

    ghost coded = { Prim.hlevel (codes, run_values.the_row.coded, value_code, outcome_code, birth_code, id_code, attempt_code, fault_code) };

    ghost view = { λ t. t.turning };

    ghost invariant = { λ t. (t.log.is_whole ≡ true → t.log.seen ≡ t.turning.run.log)
        × StayOut P.is_open P.plan t.turning t.turning.given_up t.tickets };
}

/// The shared log goes on to the run's as it is now.
fn follow<S: ScriptName, P: RunName>(turning: &Turning<S, P>, log: &mut SeenLog<P>)
    requires { log.old.is_whole ≡ true → IsPrefix log.old.seen turning.now.run.log }
    ensures { log.new.is_whole ≡ true → log.new.seen ≡ turning.now.run.log }
{
    log.follow(turning.log());
}

/// The job that a turn gives out, if it does, with its ticket, as one of a run whose log that is, where it is whole.
fn give<S: ScriptName, P: RunName, R: Wait>(
    rt: &R,
    log: &SeenLog<P>,
    tickets: &mut Tickets<Job<S>, P>,
    told: Turn<Job<S>>,
) -> Turn<SeenJob<S, P>>
    requires { log.now.is_whole ≡ true → TurnGivesOwn log.now.seen (told_of told) }
    ensures same { told_of result ≡ told_of told }
    ensures tickets { tickets.new ≡ given_behind (told_of told) tickets.old }
{
    match told {
        Turn::Job(job) => {
            let ticket = tickets.give(rt, &job);
            Turn::Job(SeenJob::new(job, ticket, log.seen.again(), log.is_whole))
        }
        Turn::Did => Turn::Did,
        Turn::Refused(refusal) => Turn::Refused(refusal),
        Turn::Again => Turn::Again,
        Turn::End => Turn::End,
    }
}

impl<S: ScriptName, P: RunName> SeenTurning<S, P> {
    /// The run, whose log is shared from here on, and of whose jobs none has a ticket.
    pub fn new(
        turning: Turning<S, P>,
        log: SharedLog<P>,
        seen: LogPrefix<P>,
        tickets: Tickets<Job<S>, P>,
    ) -> SeenTurning<S, P>
        requires seen { seen ≡ [] }
        requires tickets { tickets ≡ [] }
        ensures { result ≡ turning }
    {
        let mut log = SeenLog::new(log, seen);
        log.follow(turning.log());
        SeenTurning {
            turning,
            log,
            tickets,
        }
    }

    /// One event of an open run: see `Turning::apply`.
    pub fn apply(
        &mut self,
        alloc: Global,
        event: Event,
        seat: u8,
        done: Option<Done<S>>,
    ) -> Reply<S>
        requires open { P.is_open ≡ true }
        ensures answers { Answers self.old.run event seat done self.new.run (reply_of result) }
        ensures counted { totals_of self.new.run.log ≡ plus (totals_of self.old.run.log) (counted event (reply_of result)) }
        ensures watched { AddsFrom P.watched seat (counted event (reply_of result)) self.old.run.log self.new.run.log }
        ensures seated { StaysFrom seat self.old.run.log self.new.run.log }
    {
        let told = self.turning.apply(alloc, event, seat, done);
        follow(&self.turning, &mut self.log);
        told
    }

    /// The commit of what was done on a job, whose ticket shows that it wasn't handed in before, and whose answers aren't compared where it is known to be the
    /// run's own.
    pub fn commit<R: Wait>(
        &mut self,
        rt: &R,
        alloc: Global,
        seat: u8,
        done: SeenDone<S, P>,
    ) -> Reply<S>
        ensures answers { Answers self.old.run (Commit done.job.number) seat (Some done) self.new.run (reply_of result) }
        ensures counted { totals_of self.new.run.log ≡ plus (totals_of self.old.run.log) (counted (Commit done.job.number) (reply_of result)) }
        ensures watched { AddsFrom P.watched seat (counted (Commit done.job.number) (reply_of result)) self.old.run.log self.new.run.log }
        ensures seated { StaysFrom seat self.old.run.log self.new.run.log }
    {
        jobs_stand();
        let _ = self.turning.log();
        let event = Event::Commit(done.number());
        let (done, ticket, is_own) = done.of(&self.log);
        self.tickets.take_back(rt, ticket);
        let told = self
            .turning
            .apply_as(alloc, event, seat, Some(done), is_own);
        follow(&self.turning, &mut self.log);
        told
    }

    /// One turn of a seat: see `Turning::turn`. A job that it gives out has a ticket.
    pub fn turn<R: Wait>(&mut self, rt: &R, alloc: Global, seat: u8) -> Turn<SeenJob<S, P>>
        ensures turned { Turned self.old seat self.new (told_of result) }
        ensures counted { totals_of self.new.run.log ≡ plus (totals_of self.old.run.log) (turn_counted (told_of result)) }
        ensures watched { AddsFrom P.watched seat (turn_counted (told_of result)) self.old.run.log self.new.run.log }
        ensures seated { StaysFrom seat self.old.run.log self.new.run.log }
    {
        jobs_stand();
        claims_give_jobs_out();
        let _ = self.turning.log();
        let told = self.turning.turn(alloc, seat);
        follow(&self.turning, &mut self.log);
        give(rt, &self.log, &mut self.tickets, told)
    }

    /// Whether a turn would apply an event now: see `Turning::has_turn`.
    pub fn has_turn(&self, alloc: Global) -> bool
        ensures { result ≡ true → is_event (choice self.now) ≡ true }
    {
        self.turning.has_turn(alloc)
    }

    /// Gives the run up for want of memory, unless it was given up before.
    pub fn give_up(&mut self)
        ensures { self.new ≡ record self.old { given_up = or_first self.old.given_up NoMemory } }
    {
        self.turning.give_up();
    }

    /// How much of the log was seen.
    pub fn seen(&self) -> LogPrefix<P> {
        self.log.seen.again()
    }

    /// The entries so far, oldest first.
    pub fn log(&self) -> &[Entry]
        ensures { result.now ≡ self.now.run.log }
    {
        self.turning.log()
    }

    /// The run alone.
    pub fn into_turning(self) -> Turning<S, P>
        ensures { result ≡ self }
    {
        let SeenTurning {
            turning,
            log: _,
            tickets: _,
        } = self;
        turning
    }

    /// Whether the run is at its end: see `Turning::is_at_end`.
    pub fn is_at_end(&self, alloc: Global) -> bool
        ensures at_end { result ≡ is_at_end self.now }
        ensures over { result ≡ true → self.now.given_up ≡ None → IsOverBeside S.script P.is_open P.plan P.size self.now.run }
    {
        self.turning.is_at_end(alloc)
    }
}
