// Runs on threads, beside a plan.

ghost use Rattle.std.specs.Prelude.{◌≡◌, ◌+◌, ◌≤◌, ℕ, [], None, true, IfOk, IfSome, length, slice_get};
ghost use Rattle.event_log.specs.Books.{totals_of};
ghost use Rattle.event_log.specs.Laws.{nothing, plus};
ghost use Rattle.log_entries.specs.declared.refusal.Refusal.TheVariants.{NoMemory};
ghost use Rattle.run_paths.specs.of_protocol_board.Cores.{Answers, AnswersAsShown, GivesOwn, IsOwn, reply_of};
ghost use Rattle.run_paths.specs.of_protocol_board.Cores.{IsSoundLog, IsSoundRun};
ghost use Rattle.books.specs.SeatTotals.{seat_totals};
ghost use Rattle.run_paths.specs.Paths.{IsTrueDone};
ghost use Rattle.seats.specs.Counted.{AddsFrom, ClaimsGaveJobs, IsFresh, counted};
ghost use Rattle.seats.specs.Ends.{EndsFor, HasEnded, IsOverBeside, log_at, size_of};
ghost use Rattle.seats.specs.Held.{StayHeld};
ghost use Rattle.seats.specs.Outside.{MayApply, Passes};
ghost use Rattle.seats.specs.Seated.{AreFrom, StaysFrom};
ghost use Rattle.seats.specs.Turns.{Does, Follows, Plans, Takes, TurnGivesOwn, Turned, choice, due, is_at_end, is_event, or_first, past_line, turn_counted};
ghost use Rattle.seats.specs.Views.{choice_of, told_of};

use crate::choice::{Choice, behind_plan, due, is_event};
use crate::end::Ended;
use crate::outs::{JobOut, busy, first_refusal, keep_or_give_up};
use crate::run_name::RunName;
use crate::turn::Turn;
use event_files::{PlanLine, RunPlan};
use log_entries::{Entry, Event, Refusal};
use run_paths::law::{none_came, paths_go_on};
use run_paths::{Board, Reply};
use segment::{Done, Job, ScriptName};
use sequence::Seq;
use std::alloc::{AllocError, Global};
use std::marker::{Model, PhantomData};

/// The run `P` on threads, of the script `S`, beside its plan.
#[derive(Drop)]
pub struct Turning<S: ScriptName, P: RunName> {
    board: Board<S>,
    plan: Seq<PlanLine>,
    /// How many of the plan's lines were taken.
    taken: usize,
    /// How many commits were accepted.
    commits: u64,
    out: Seq<JobOut>,
    given_up: Option<Refusal>,
    name: PhantomData<P>,
}

impl<S: ScriptName, P: RunName> Model for Turning<S, P> {
    ghost use Rattle.std.specs.Prelude.{◌≡◌};
    ghost use Rattle.std.specs.Coded.{codes};
    ghost use Rattle.ids.specs.Codes.{id_code};
    ghost use Rattle.held.specs.Codes.{value_code, outcome_code, birth_code};
    ghost use Rattle.ids.specs.Codes.{attempt_code};
    ghost use Rattle.values.specs.FaultCodes.{fault_code};
    ghost use Rattle.values.specs.contracts.value.RunValue as run_values;
    ghost use Rattle.event_log.specs.Books.{totals_of};
    ghost use Rattle.run_paths.specs.of_protocol_board.Cores.{first_state};
    ghost use Rattle.run_paths.specs.Paths.{Comes};
    ghost use Rattle.seats.specs.Counted.{ClaimsGaveJobs};
    ghost use Rattle.seats.specs.Ends.{GoesOn, IsWithinLimits, Stands, first_events};
    ghost use Rattle.seats.specs.Outside.{KeepsToThem};
    ghost use Rattle.seats.specs.Held.{StayHeld};
    ghost use Rattle.seats.specs.Owed.{AreOut};
    ghost use Rattle.seats.specs.Ruled.{StaysRuled};
    ghost use Rattle.seats.specs.Turns.{TurnState};

    ghost Value = { TurnState };

    ghost coded = { Prim.hlevel (codes, run_values.the_row.coded, value_code, outcome_code, birth_code, id_code, attempt_code, fault_code) };

    ghost view = { λ t. record { run = t.board; plan = t.plan; taken = t.taken; out = t.out; given_up = t.given_up } };

    ghost invariant = { λ t. ClaimsGaveJobs t.board × (t.commits ≡ (totals_of t.board.log).commits)
        × (t.plan ≡ P.plan) × (t.board.first_nodes ≡ P.size.nodes) × GoesOn P.size.slots t.board t.given_up
        × Stands (first_events t.taken t.plan) t.board.log t.given_up
        × KeepsToThem P.is_open (first_events t.taken t.plan) t.board.log t.given_up
        × Comes S.script (first_state P.size.nodes P.size.slots) t.board
        × AreOut t.out t.board.log t.given_up × IsWithinLimits t.board.log t.given_up
        × StaysRuled S.script P.is_open P.plan P.size
        (record { run = t.board; plan = t.plan; taken = t.taken; out = t.out; given_up = t.given_up }) t.given_up
        × StayHeld P.is_open P.plan t.out t.board.log t.given_up };
}

/// How many commits were accepted, behind one event more; no more than the log has entries.
fn commits_behind<S: ScriptName>(commits: u64, event: &Event, told: &Reply<S>, most: usize) -> u64
    requires { commits + (counted event.now (reply_of told.now)).commits ≤ most }
    ensures { result ≡ commits + (counted event.now (reply_of told.now)).commits }
{
    match (event, told) {
        (Event::Commit(_), Reply::Ok) => commits + 1,
        _ => commits,
    }
}

/// How many entries the log has.
fn entries_of<S: ScriptName>(board: &Board<S>) -> usize
    ensures { result ≡ length board.now.log }
{
    board.log().len()
}

/// What was done, if anything was, is true of its job.
fn attest<S: ScriptName>(done: &Option<Done<S>>)
    ensures { IsTrueDone S.script done.now }
{
    if let Some(done) = done {
        let _ = done.job();
    }
}

/// One event: see `Board::apply`. With `is_own` what was done is done on a job of this run: see `Board::apply_own`.
fn step<S: ScriptName>(
    alloc: Global,
    board: &mut Board<S>,
    event: Event,
    seat: u8,
    done: Option<Done<S>>,
    is_own: bool,
) -> Reply<S>
    requires { is_own ≡ true → IsOwn board.old.log done }
    ensures answers { Answers board.old event seat done board.new (reply_of result) }
    ensures shown { AnswersAsShown S.script board.old event done board.new (reply_of result) }
    ensures own { GivesOwn board.new.log (reply_of result) }
{
    if is_own {
        return board.apply_own(alloc, event, seat, done);
    }
    board.apply(alloc, event, seat, done)
}

impl<S: ScriptName, P: RunName> Turning<S, P> {
    /// A run that begins, beside the plan.
    pub fn new(alloc: Global, board: Board<S>, plan: RunPlan) -> Turning<S, P>
        requires fresh { IsFresh board }
        requires named { (plan.lines ≡ P.plan) × (size_of board ≡ P.size) }
        ensures begins { result ≡ record { run = board; plan = plan.lines; taken = 0; out = []; given_up = None } }
        ensures totals { totals_of result.run.log ≡ nothing }
        ensures watched { seat_totals P.watched result.run.log ≡ nothing }
        ensures seated { (seats : ℕ) → AreFrom seats result.run.log }
    {
        paths_go_on();
        none_came();
        let _ = board.log();
        Turning {
            board,
            plan: plan.lines,
            taken: 0,
            commits: 0,
            out: Seq::new(alloc),
            given_up: None,
            name: PhantomData,
        }
    }

    /// One event, behind which so many of the plan's lines are taken. With `is_own` what was done is done on a job of this run.
    fn apply_past(
        &mut self,
        alloc: Global,
        event: Event,
        seat: u8,
        done: Option<Done<S>>,
        is_own: bool,
        taken: usize,
    ) -> Reply<S>
        requires passes { Passes P.is_open self.old event done taken }
        requires own { is_own ≡ true → IsOwn self.old.run.log done }
        ensures own { GivesOwn self.new.run.log (reply_of result) }
        ensures answers { Answers self.old.run event seat done self.new.run (reply_of result) }
        ensures counted { totals_of self.new.run.log ≡ plus (totals_of self.old.run.log) (counted event (reply_of result)) }
        ensures watched { AddsFrom P.watched seat (counted event (reply_of result)) self.old.run.log self.new.run.log }
        ensures seated { StaysFrom seat self.old.run.log self.new.run.log }
        ensures follows { Follows (record self.old { taken = taken }) event (reply_of result) self.new }
    {
        paths_go_on();
        attest(&done);
        let told = step(alloc, &mut self.board, event, seat, done, is_own);
        let most = entries_of(&self.board);
        self.commits = commits_behind(self.commits, &event, &told, most);
        keep_or_give_up(&mut self.out, &mut self.given_up, &event, &told);
        self.taken = taken;
        told
    }

    /// One event: see `Board::apply`. What it adds to the totals of the log is what its answer says, and to
    /// those of the watched seat, if it came from that.
    pub fn apply(
        &mut self,
        alloc: Global,
        event: Event,
        seat: u8,
        done: Option<Done<S>>,
    ) -> Reply<S>
        requires { MayApply P.is_open self.old event done }
        ensures own { GivesOwn self.new.run.log (reply_of result) }
        ensures answers { Answers self.old.run event seat done self.new.run (reply_of result) }
        ensures counted { totals_of self.new.run.log ≡ plus (totals_of self.old.run.log) (counted event (reply_of result)) }
        ensures watched { AddsFrom P.watched seat (counted event (reply_of result)) self.old.run.log self.new.run.log }
        ensures seated { StaysFrom seat self.old.run.log self.new.run.log }
        ensures follows { Follows self.old event (reply_of result) self.new }
    {
        self.apply_as(alloc, event, seat, done, false)
    }

    /// One event, as `apply` takes it. With `is_own` what was done is done on a job of this run: see `Board::apply_own`.
    pub(crate) fn apply_as(
        &mut self,
        alloc: Global,
        event: Event,
        seat: u8,
        done: Option<Done<S>>,
        is_own: bool,
    ) -> Reply<S>
        requires may { MayApply P.is_open self.old event done }
        requires own { is_own ≡ true → IsOwn self.old.run.log done }
        ensures own { GivesOwn self.new.run.log (reply_of result) }
        ensures answers { Answers self.old.run event seat done self.new.run (reply_of result) }
        ensures counted { totals_of self.new.run.log ≡ plus (totals_of self.old.run.log) (counted event (reply_of result)) }
        ensures watched { AddsFrom P.watched seat (counted event (reply_of result)) self.old.run.log self.new.run.log }
        ensures seated { StaysFrom seat self.old.run.log self.new.run.log }
        ensures follows { Follows self.old event (reply_of result) self.new }
    {
        let taken = self.taken;
        self.apply_past(alloc, event, seat, done, is_own, taken)
    }

    /// The plan's next line.
    fn line(&self) -> Option<PlanLine>
        ensures { result ≡ slice_get self.now.plan self.now.taken }
    {
        if self.taken < self.plan.len() {
            return Some(*self.plan.get(self.taken));
        }
        None
    }

    /// How many of the plan's lines are taken behind its next one, if there is one.
    fn past_line(&self) -> usize
        ensures { result ≡ past_line self.now.plan self.now.taken }
    {
        if self.taken < self.plan.len() {
            return self.taken + 1;
        }
        self.taken
    }

    /// The plan's next line, if so many commits were accepted.
    fn line_due(&self) -> Option<PlanLine>
        ensures { result ≡ due (totals_of self.now.run.log).commits (slice_get self.now.plan self.now.taken) }
    {
        due(self.commits, self.line())
    }

    /// What a turn is to do.
    fn choose(&self, alloc: Global) -> Result<Choice, AllocError>
        ensures { IfOk result (λ c. choice_of c ≡ choice self.now) }
    {
        let nobody = Seq::new(alloc);
        let first = self.board.next(&nobody);
        if let Some(Event::Deliver(message)) = first {
            return Ok(Choice::Does(Event::Deliver(message)));
        }
        if let Some(line) = self.line_due() {
            return Ok(Choice::Plans(line.event));
        }
        let busy = busy(alloc, &self.out)?;
        let claim = self.board.next(&busy);
        Ok(behind_plan(claim, first, self.line()))
    }

    /// The event of the run's own that was chosen.
    fn take(&mut self, alloc: Global, seat: u8, event: Event) -> Turn<Job<S>>
        requires chosen { choice self.old ≡ Does event }
        requires goes_on { self.old.given_up ≡ None }
        ensures own { TurnGivesOwn self.new.run.log (told_of result) }
        ensures takes { Takes self.old event seat self.new (told_of result) }
        ensures counted { totals_of self.new.run.log ≡ plus (totals_of self.old.run.log) (turn_counted (told_of result)) }
        ensures watched { AddsFrom P.watched seat (turn_counted (told_of result)) self.old.run.log self.new.run.log }
        ensures seated { StaysFrom seat self.old.run.log self.new.run.log }
    {
        let taken = self.taken;
        match self.apply_past(alloc, event, seat, None, false, taken) {
            Reply::Job(job) => Turn::Job(job),
            Reply::Ok => Turn::Did,
            Reply::Refused(refusal) => Turn::Refused(refusal),
        }
    }

    /// The event of the plan's next line, which was chosen.
    fn take_line(&mut self, alloc: Global, seat: u8, event: Event) -> Turn<Job<S>>
        requires chosen { choice self.old ≡ Plans event }
        requires goes_on { self.old.given_up ≡ None }
        ensures own { TurnGivesOwn self.new.run.log (told_of result) }
        ensures takes { Takes (record self.old { taken = past_line self.old.plan self.old.taken }) event seat
            self.new (told_of result) }
        ensures counted { totals_of self.new.run.log ≡ plus (totals_of self.old.run.log) (turn_counted (told_of result)) }
        ensures watched { AddsFrom P.watched seat (turn_counted (told_of result)) self.old.run.log self.new.run.log }
        ensures seated { StaysFrom seat self.old.run.log self.new.run.log }
    {
        let past = self.past_line();
        match self.apply_past(alloc, event, seat, None, false, past) {
            Reply::Job(job) => Turn::Job(job),
            Reply::Ok => Turn::Did,
            Reply::Refused(refusal) => Turn::Refused(refusal),
        }
    }

    /// One turn of a seat, which applies one event or none; see docs/protocol.md, "Turns". The least message that was never delivered is
    /// delivered; else the plan's next line is applied, if its number of commits were accepted; else the least worker that is ready claims;
    /// else, where a live worker's job is out, nothing is done; else the plan's next line is applied; else the run is at its end.
    ///
    /// Once the run is given up it is at its end too: behind an event that was refused 37, 38 or 39, or where there was no memory.
    pub fn turn(&mut self, alloc: Global, seat: u8) -> Turn<Job<S>>
        ensures own { TurnGivesOwn self.new.run.log (told_of result) }
        ensures turned { Turned self.old seat self.new (told_of result) }
        ensures counted { totals_of self.new.run.log ≡ plus (totals_of self.old.run.log) (turn_counted (told_of result)) }
        ensures watched { AddsFrom P.watched seat (turn_counted (told_of result)) self.old.run.log self.new.run.log }
        ensures seated { StaysFrom seat self.old.run.log self.new.run.log }
    {
        if self.given_up.is_some() {
            return Turn::End;
        }
        let Ok(choice) = self.choose(alloc) else {
            self.give_up();
            return Turn::End;
        };
        match choice {
            Choice::Does(event) => self.take(alloc, seat, event),
            Choice::Plans(event) => self.take_line(alloc, seat, event),
            Choice::Waits => Turn::Again,
            Choice::Ends => Turn::End,
        }
    }

    /// Whether a turn would apply an event now. It is no where the run was given up, or where there is no memory to find out.
    pub fn has_turn(&self, alloc: Global) -> bool
        ensures { result ≡ true → is_event (choice self.now) ≡ true }
    {
        if self.given_up.is_some() {
            return false;
        }
        let Ok(choice) = self.choose(alloc) else {
            return false;
        };
        is_event(&choice)
    }

    /// Gives the run up for want of memory, unless it was given up before.
    pub fn give_up(&mut self)
        ensures { self.new ≡ record self.old { given_up = or_first self.old.given_up NoMemory } }
    {
        self.given_up = first_refusal(self.given_up, Refusal::NoMemory);
    }

    /// The refusal for which the run was given up, if it was.
    pub fn given_up(&self) -> Option<Refusal>
        ensures { result ≡ self.now.given_up }
    {
        self.given_up
    }

    /// Whether the run is at its end: it was given up, or nothing is left to do, nor of the plan, and each job that was given out was handed in.
    pub fn is_at_end(&self, alloc: Global) -> bool
        ensures at_end { result ≡ is_at_end self.now }
        ensures over { result ≡ true → self.now.given_up ≡ None → IsOverBeside S.script P.is_open P.plan P.size self.now.run }
    {
        if self.given_up.is_some() {
            return true;
        }
        if self.taken < self.plan.len() {
            return false;
        }
        if self.out.len() > 0 {
            return false;
        }
        let nobody = Seq::new(alloc);
        self.board.next(&nobody).is_none()
    }

    /// How the run ended: over, at a limit, or for want of memory, only where it was given up for that; with its board but in the last case.
    pub fn into_end(self) -> Ended<S>
        requires { self.given_up ≡ None → IsOverBeside S.script P.is_open P.plan P.size self.run }
        ensures ended { HasEnded S.script P.is_open P.plan P.size result }
        ensures log { IfSome (log_at result) (λ log. log ≡ self.run.log) }
        ensures memory { EndsFor self.given_up result }
    {
        let given_up = self.given_up;
        let board = self.into_board();
        match given_up {
            None => Ended::Over(board),
            Some(Refusal::Limit) => Ended::AtLimit(board),
            Some(_) => {
                drop(board);
                Ended::NoMemory
            }
        }
    }

    /// The entries so far, oldest first. For whoever goes on by laws of single steps: the plan is the run's (`planned`), the run is as it is between two
    /// events (`sound`), each accepted claim gave out a job (`given`), and each job was handed in once (`held`).
    pub fn log(&self) -> &[Entry]
        ensures log { result.now ≡ self.now.run.log }
        ensures meant { IsSoundLog S.script self.now.run }
        ensures planned { self.now.plan ≡ P.plan }
        ensures sound { IsSoundRun S.script self.now.run }
        ensures given { ClaimsGaveJobs self.now.run }
        ensures held { StayHeld P.is_open P.plan self.now.out self.now.run.log self.now.given_up }
    {
        self.board.log()
    }

    /// Gives back the run as it stands; plan, counts and jobs that are out are dropped.
    pub fn into_board(self) -> Board<S>
        ensures { result ≡ self.run }
    {
        let Turning {
            board,
            plan: _,
            taken: _,
            commits: _,
            out: _,
            given_up: _,
            name: _,
        } = self;
        board
    }
}
