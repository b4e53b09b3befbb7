// Every event keeps a run of the whole protocol sound, so that its log is legal.

ghost use Rattle.protocol_laws.specs.Given.{ClaimsGiveGoodJobs, ClaimsGiveJobsOfTheLog, JobsStayOfTheLog, RunsAreGood, RunsHaveTheLogsAnswers};
ghost use Rattle.protocol_laws.specs.Pace.{KeepsPace};
ghost use Rattle.protocol_laws.specs.Plans.{PlansHavePremises};
ghost use Rattle.protocol_laws.specs.Shown.{RefusalsAreAsShown, RefusalsAreShown};
ghost use Rattle.protocol_laws.specs.Law.{EventsKeepSound, NothingHeldIsReleased, OpeningIsSound, ProtocolStaysLegal, SoundIsLegal};

/// A run begins sound, in a cluster that has a node.
pub fn opening_is_sound()
    ensures { OpeningIsSound }
{}

/// Every event keeps a run sound, accepted or refused: claims, commits, deliveries, ticks, notices, losses, evictions, deaths of workers
/// and nodes, and nodes that join; where what is handed in as done on a job is what its attempt's replay does, and no function of the script
/// calls main and none but main prints.
pub fn event_keeps_sound()
    ensures { EventsKeepSound }
{}

/// The log of a sound run is legal beside its own network.
pub fn sound_is_legal()
    ensures { SoundIsLegal }
{}

/// The log of the whole protocol is legal, whatever events come, in any order and number.
pub fn protocol_stays_legal()
    ensures { ProtocolStaysLegal }
{}

/// What a sound run released wasn't held where it was released.
pub fn nothing_held_is_released()
    ensures { NothingHeldIsReleased }
{}

/// What an attempt of a legal log bore and printed begins what its task does on its answers, which are of the kinds asked for; where the
/// script's functions are allowed.
pub fn attempts_keep_pace()
    ensures { KeepsPace }
{}

/// Each attempt of a live worker is one whose job may be run: its answers are of the kinds asked for, and what it bore and printed so far begins what
/// the task does on them.
pub fn runs_are_good()
    ensures { RunsAreGood }
{}

/// Each job that a claim gives out is one that may be run: its answers are of the kinds asked for, and what it bore and printed so far
/// begins what its task does on them.
pub fn claims_give_good_jobs()
    ensures { ClaimsGiveGoodJobs }
{}

/// The answers of each job that a claim gives out begin what the log has of answers to its attempt.
pub fn claims_give_jobs_of_the_log()
    ensures { ClaimsGiveJobsOfTheLog }
{}

/// Each attempt of a live worker has the answers that the log has of answers to it.
pub fn runs_have_the_logs_answers()
    ensures { RunsHaveTheLogsAnswers }
{}

/// A job whose answers begin what the log has of answers to its attempt is such a job of every longer log too.
pub fn jobs_stay_of_the_log()
    ensures { JobsStayOfTheLog }
{}

/// Each event of a sound run is answered as its log shows, beside its own network and what is handed in: with the least number of the causes that
/// log and network show; where they show none, it is accepted, or refused for a limit, an attempt that isn't ready, or a copy that is pinned or
/// isn't there.
pub fn refusals_are_as_shown()
    ensures { RefusalsAreAsShown }
{}

/// No such live worker, no such job, its worker is dead, no such message, what the notice tells of isn't dead, no such live node: each of these is
/// answered exactly where the log shows it.
pub fn refusals_are_shown()
    ensures { RefusalsAreShown }
{}

/// What an object is made from and is lost is older than it, and a worker's objects are counted from 1: what the plan for a lost object asks of the tables.
pub fn plans_have_premises()
    ensures { PlansHavePremises }
{}
