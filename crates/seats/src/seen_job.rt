// Jobs that a run on threads gave out, with how much of its log has what they were answered, and the ticket of each.

ghost use Rattle.std.specs.Prelude.{◌≡◌, true, IfOk};
ghost use Rattle.script_check.specs.Trees.{script_of};
ghost use Rattle.run_paths.specs.of_protocol_board.Cores.{IsOfLog};
ghost use Rattle.seats.specs.Held.{IsFor};

use crate::seen_log::SeenLog;
use job_tickets::{Ticket, TicketName};
use kept_frames::Frames;
use segment::{Compiled, Done, Job, NoMemory, ScriptName};
use shared_log::{LogName, LogPrefix};
use std::alloc::Global;
use std::marker::Model;

/// A job of a run whose log is shared by the name `P`, with its ticket, seen as the job. Where it is the run's own, what its attempt was answered begins
/// what a beginning of the log has of answers to it.
#[derive(Drop)]
pub struct SeenJob<S: ScriptName, P: LogName + TicketName> {
    job: Job<S>,
    ticket: Ticket<Job<S>, P>,
    seen: LogPrefix<P>,
    is_own: bool,
}

impl<S: ScriptName, P: LogName + TicketName> Model for SeenJob<S, P> {
    ghost use Rattle.std.specs.Prelude.{◌≡◌, true};
    ghost use Rattle.std.specs.Coded.{codes};
    ghost use Rattle.held.specs.Codes.{birth_code, outcome_code, value_code};
    ghost use Rattle.run_paths.specs.of_protocol_board.Cores.{IsOfLog};
    ghost use Rattle.seats.specs.Held.{IsFor};
    ghost use Rattle.segment.specs.Jobs.{JobParts};

    ghost Value = { JobParts };

    ghost coded = { Prim.hlevel (codes, birth_code, value_code, outcome_code) };

    ghost view = { λ g. g.job };

    ghost invariant = { λ g. (g.is_own ≡ true → IsOfLog g.seen g.job) × IsFor g.job g.ticket };
}

impl<S: ScriptName, P: LogName + TicketName> SeenJob<S, P> {
    /// The job, with its ticket; with `is_own` the run's own by that beginning of the log.
    pub(crate) fn new(
        job: Job<S>,
        ticket: Ticket<Job<S>, P>,
        seen: LogPrefix<P>,
        is_own: bool,
    ) -> SeenJob<S, P>
        requires own { is_own ≡ true → IsOfLog seen job }
        requires ticket { IsFor job ticket }
        ensures { result ≡ job }
    {
        SeenJob {
            job,
            ticket,
            seen,
            is_own,
        }
    }

    /// The job's number, counted from 1.
    pub fn number(&self) -> u64
        ensures { result ≡ self.now.number }
    {
        self.job.number()
    }
}

/// What was done on a job of a run whose log is shared by the name `P`, with the job's ticket, seen as what was done. Where the job is the run's own, what
/// its attempt was answered begins what a beginning of the log has of answers to it.
#[derive(Drop)]
pub struct SeenDone<S: ScriptName, P: LogName + TicketName> {
    done: Done<S>,
    ticket: Ticket<Job<S>, P>,
    seen: LogPrefix<P>,
    is_own: bool,
}

impl<S: ScriptName, P: LogName + TicketName> Model for SeenDone<S, P> {
    ghost use Rattle.std.specs.Prelude.{◌≡◌, true};
    ghost use Rattle.std.specs.Coded.{codes};
    ghost use Rattle.held.specs.Codes.{birth_code, outcome_code, value_code};
    ghost use Rattle.run_paths.specs.of_protocol_board.Cores.{IsOfLog};
    ghost use Rattle.seats.specs.Held.{IsFor};
    ghost use Rattle.segment.specs.Jobs.{Done};

    ghost Value = { Done };

    ghost coded = { Prim.hlevel (codes, birth_code, value_code, outcome_code) };

    ghost view = { λ d. d.done };

    ghost invariant = { λ d. (d.is_own ≡ true → IsOfLog d.seen d.done.job) × IsFor d.done.job d.ticket };
}

impl<S: ScriptName, P: LogName + TicketName> SeenDone<S, P> {
    /// The number of its job, counted from 1.
    pub fn number(&self) -> u64
        ensures { result ≡ self.now.job.number }
    {
        self.done.job().number()
    }

    /// What was done; the job's ticket; and whether the log goes on from a beginning of it that has what the job was answered, as far as is known.
    pub(crate) fn of(self, log: &SeenLog<P>) -> (Done<S>, Ticket<Job<S>, P>, bool)
        ensures done { result.0 ≡ self }
        ensures ticket { IsFor self.job result.1 }
        ensures whole { result.2 ≡ true → log.now.is_whole ≡ true }
        ensures own { result.2 ≡ true → IsOfLog log.now.seen self.job }
    {
        let SeenDone {
            done,
            ticket,
            seen,
            is_own,
        } = self;
        if is_own && log.goes_on_from(&seen) {
            return (done, ticket, true);
        }
        (done, ticket, false)
    }
}

/// Frames of attempts that wait, kept by one thread, and how much it has seen of the run's log, as which contracts see them: that has what the
/// attempts were answered.
#[derive(Drop)]
pub struct SeenFrames<S: ScriptName, P: LogName> {
    frames: Frames<S>,
    seen: LogPrefix<P>,
}

impl<S: ScriptName, P: LogName> Model for SeenFrames<S, P> {
    ghost use Rattle.std.specs.Prelude.{List};
    ghost use Rattle.std.specs.Coded.{codes};
    ghost use Rattle.log_entries.specs.contracts.entry.Entry as entry;
    ghost use Rattle.log_entries.specs.declared.entry.Entry.{Entry};
    ghost use Rattle.run_paths.specs.of_protocol_board.Own.{FramesAreOwn};

    ghost Value = { List Entry };

    ghost coded = { Prim.hlevel (codes, entry.the_row.coded) };

    ghost view = { λ f. f.seen };

    ghost invariant = { λ f. FramesAreOwn f.seen f.frames };
}

impl<S: ScriptName, P: LogName + TicketName> SeenFrames<S, P> {
    /// No frames yet.
    pub fn new(alloc: Global, seen: LogPrefix<P>) -> SeenFrames<S, P>
        ensures { result ≡ seen }
    {
        SeenFrames {
            frames: Frames::new(alloc),
            seen,
        }
    }

    /// Runs the job, where it is the run's own from its attempt's frame if that is kept, and keeps where it waits next. Takes no lock. On `NoMemory` the
    /// job is given up. Answers aren't compared: the cost doesn't grow with them.
    pub fn run(
        &mut self,
        alloc: Global,
        script: &Compiled,
        given: SeenJob<S, P>,
    ) -> Result<SeenDone<S, P>, NoMemory>
        requires { script_of script.now ≡ S.script }
        ensures { IfOk result (λ d. d.job ≡ given) }
    {
        let SeenJob {
            job,
            ticket,
            seen,
            is_own,
        } = given;
        if !is_own {
            return Ok(SeenDone {
                done: job.run(alloc, script)?,
                ticket,
                seen,
                is_own: false,
            });
        }
        self.seen = self.seen.longer(&seen);
        Ok(SeenDone {
            done: self.frames.run(alloc, script, job)?,
            ticket,
            seen,
            is_own: true,
        })
    }
}
