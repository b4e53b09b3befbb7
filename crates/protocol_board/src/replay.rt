// The replay of an event file.

ghost use Rattle.std.specs.Prelude.{◌≡◌, ◌+◌, ◌<◌, ◌^◌, ◌⊎◌, ◌++◌, ◌∷◌, [], IfOk, IfErr, OnErr, OnOk, length};
ghost use Rattle.script_check.specs.Trees.{script_of};
ghost use Rattle.protocol.specs.Settling.{next};
ghost use Rattle.protocol_board.specs.Replays.{ComesToRest, LinePlays, LineStops, PlayStops, Plays, SettleStops, Step, StopsAt, from_first};
ghost use Rattle.protocol_board.specs.Replays.{EventPlays, EventStops, FileStops, Gives, HistoryStops, PlaysFile, PlaysHistory};
ghost use Rattle.protocol_board.specs.Views.{noted};

use crate::board::Board;
use crate::given::{given_by, hand_in, is_same, keep, no_jobs, run_job};
use crate::numbers::no_numbers;
use crate::stopped::ReplayStop;
use event_files::{EventFile, Line, MOST_EVENTS, RecordedEvent};
use ids::WorkerId;
use kept_frames::Frames;
use log_entries::Event;
use protocol_core::Core;
use segment::{Compiled, Job, ScriptName};
use sequence::Seq;
use std::alloc::{AllocError, Global};
use std::marker::Model;

/// A run to which the events of a file are applied, one after the other. With the first commit of a job comes what was done on it, and
/// with every other event nothing.
#[derive(Drop)]
pub struct Replay<S: ScriptName> {
    board: Board<S>,
    /// The jobs that were given out, by number, and not handed in yet.
    jobs: Seq<Option<Job<S>>>,
    /// Where attempts wait.
    frames: Frames<S>,
    /// How many events were applied, refused ones too.
    applied: usize,
    /// Behind each event, how many messages had been sent.
    sent: Seq<usize>,
    /// How many lines were begun.
    begun: usize,
    /// Of each event, the number of its line.
    lines: Seq<usize>,
}

impl<S: ScriptName> Model for Replay<S> {
    ghost use Rattle.std.specs.Coded.{codes};
    ghost use Rattle.ids.specs.Codes.{id_code};
    ghost use Rattle.held.specs.Codes.{value_code, outcome_code, birth_code};
    ghost use Rattle.ids.specs.Codes.{attempt_code};
    ghost use Rattle.values.specs.FaultCodes.{fault_code};
    ghost use Rattle.values.specs.contracts.value.RunValue as run_values;
    ghost use Rattle.protocol_board.specs.Replays.{Play};

    ghost Value = { Play };

    ghost coded = { Prim.hlevel (codes, run_values.the_row.coded, value_code, outcome_code, birth_code, id_code, attempt_code, fault_code) };

    ghost use Rattle.protocol_board.specs.Own.{FramesAreOwn, JobsAreOwn};

    ghost view = { λ r. record { run = r.board; jobs = r.jobs; applied = r.applied; sent = r.sent; begun = r.begun; lines = r.lines } };

    ghost invariant = { λ r. JobsAreOwn r.board.log r.jobs × FramesAreOwn r.board.log r.frames };
}

impl<S: ScriptName> Replay<S> {
    /// A replay that begins.
    pub fn new(alloc: Global, core: Core<S>) -> Replay<S>
        ensures { result ≡ record { run = core; jobs = []; applied = 0; sent = []; begun = 0; lines = [] } }
    {
        Replay {
            board: Board::new(core),
            jobs: no_jobs(alloc),
            frames: Frames::new(alloc),
            applied: 0,
            sent: no_numbers(alloc),
            begun: 0,
            lines: no_numbers(alloc),
        }
    }

    /// The run as it is now.
    pub fn board(&self) -> &Board<S>
        ensures { result.now ≡ self.now.run }
    {
        &self.board
    }

    /// Behind each event that was applied, how many messages had been sent.
    pub fn sent(&self) -> &Seq<usize>
        ensures { result.now ≡ self.now.sent }
    {
        &self.sent
    }

    /// Of each event that was applied, the number of its line among those that were played, counted from 1.
    pub fn lines(&self) -> &Seq<usize>
        ensures { result.now ≡ self.now.lines }
    {
        &self.lines
    }

    /// How many lines were begun.
    pub fn begun(&self) -> usize
        ensures { result ≡ self.now.begun }
    {
        self.begun
    }

    /// Notes behind an event how many messages were sent, and its line.
    fn note(&mut self) -> Result<(), AllocError>
        ensures noted { OnOk result (self.new ≡ noted self.old) }
        ensures run { self.new.run ≡ self.old.run }
        ensures else_same { OnErr result (self.new ≡ record self.old { sent = self.new.sent }) }
        ensures sent { OnErr result ((self.new.sent ≡ self.old.sent) ⊎ (self.new.sent ≡ self.old.sent ++ length self.old.run.whole.network ∷ [])) }
    {
        let count = self.board.messages().len();
        self.sent.push(count)?;
        self.lines.push(self.begun)?;
        Ok(())
    }

    /// Applies one event from the seat, and answers the number of the job that a claim gave, 0 where it was refused.
    fn apply(
        &mut self,
        alloc: Global,
        script: &Compiled,
        event: Event,
        seat: u8,
    ) -> Result<Option<u64>, ReplayStop>
        requires { script_of script.now ≡ S.script }
        ensures gives { IfOk result (λ given. Gives S.script self.old event seat self.new given) }
        ensures same { OnOk result (self.new.begun ≡ self.old.begun) }
        ensures stops { IfErr result (λ stopped. StopsAt S.script self.old event seat self.new stopped) }
    {
        if self.applied >= MOST_EVENTS {
            return Err(ReplayStop::TooLong);
        }
        let job = hand_in(&mut self.jobs, &event);
        let done = run_job(alloc, script, &mut self.frames, job)?;
        self.applied += 1;
        let told = self.board.apply_own(alloc, event, seat, done);
        let given = given_by(&event, &told);
        keep(&mut self.jobs, told)?;
        self.note()?;
        Ok(given)
    }

    /// Applies one event from seat 0.
    fn take(&mut self, alloc: Global, script: &Compiled, event: Event) -> Result<(), ReplayStop>
        requires { script_of script.now ≡ S.script }
        ensures step { OnOk result (Step S.script self.old event 0 self.new) }
        ensures same { OnOk result (self.new.begun ≡ self.old.begun) }
        ensures stops { IfErr result (λ stopped. StopsAt S.script self.old event 0 self.new stopped) }
    {
        self.apply(alloc, script, event, 0)?;
        Ok(())
    }

    /// The next event where nothing else is asked for.
    fn next(&self, but: &Seq<WorkerId>) -> Option<Event>
        ensures { result ≡ next self.now.run.whole but.now }
    {
        self.board.next(but)
    }

    /// Applies the events that the settle rule names, without those of some workers, until it names none.
    fn settle(
        &mut self,
        alloc: Global,
        script: &Compiled,
        but: &Seq<WorkerId>,
    ) -> Result<(), ReplayStop>
        requires { script_of script.now ≡ S.script }
        ensures rests { OnOk result (ComesToRest S.script but.now self.old self.new) }
        ensures same { OnOk result (self.new.begun ≡ self.old.begun) }
        ensures stops { IfErr result (λ stopped. SettleStops S.script but.now self.old self.new stopped) }
    {
        while let Some(event) = self.next(but) {
            self.take(alloc, script, event)?;
        }
        Ok(())
    }

    /// No line is begun yet.
    fn restart(&mut self)
        ensures first { self.new ≡ from_first self.old }
        ensures begun { self.new.begun ≡ 0 }
    {
        self.begun = 0;
    }

    /// Applies what a line says.
    fn play_line(&mut self, alloc: Global, script: &Compiled, line: &Line) -> Result<(), ReplayStop>
        requires script { script_of script.now ≡ S.script }
        requires counts { self.old.begun + 1 < 2 ^ 64 }
        ensures counted { OnOk result (self.new.begun ≡ self.old.begun + 1) }
        ensures plays { OnOk result (LinePlays S.script line.now self.old self.new) }
        ensures stops { IfErr result (λ stopped. LineStops S.script line.now self.old self.new stopped) }
    {
        self.begun += 1;
        match line {
            Line::Event(event) => self.take(alloc, script, *event),
            Line::Settle(workers) => self.settle(alloc, script, workers),
        }
    }

    /// Applies what the lines say, one after the other: an event line its event, and a settle line the events that the settle rule names,
    /// until it names none; see docs/protocol.md, "The settle rule". Each event comes from seat 0, and with the first commit of a job
    /// comes what was done on it. The lines are counted from 1.
    ///
    /// It stops with `NoMemory` where an event, its job, or a list of the replay's own finds no memory, and with `TooLong` before event 100,001. Behind
    /// `NoMemory` what was told of the events before stands, but a job may be lost: nothing is to be played on it any more.
    pub fn play(
        &mut self,
        alloc: Global,
        script: &Compiled,
        lines: &Seq<Line>,
    ) -> Result<(), ReplayStop>
        requires { script_of script.now ≡ S.script }
        ensures plays { OnOk result (Plays S.script lines.now (from_first self.old) self.new) }
        ensures stops { IfErr result (λ stopped. PlayStops S.script lines.now (from_first self.old) self.new stopped) }
    {
        self.restart();
        for line in &lines.items {
            self.play_line(alloc, script, line)?;
        }
        Ok(())
    }

    /// Applies a recorded event.
    fn play_event(
        &mut self,
        alloc: Global,
        script: &Compiled,
        said: &RecordedEvent,
    ) -> Result<(), ReplayStop>
        requires script { script_of script.now ≡ S.script }
        requires counts { self.old.begun + 1 < 2 ^ 64 }
        ensures counted { OnOk result (self.new.begun ≡ self.old.begun + 1) }
        ensures plays { OnOk result (EventPlays S.script said.now self.old self.new) }
        ensures stops { IfErr result (λ stopped. EventStops S.script said.now self.old self.new stopped) }
    {
        self.begun += 1;
        let given = self.apply(alloc, script, said.event, said.seat)?;
        if is_same(given, said.given) {
            return Ok(());
        }
        Err(ReplayStop::WrongJob)
    }

    /// Applies the events of a recorded history, one after the other, each from its seat; with the first commit of a job comes what was done on it.
    ///
    /// It stops with `WrongJob` behind the first claim that gives another job than the history says, with `NoMemory` where an event, its job, or a list of
    /// the replay's own finds no memory, and with `TooLong` before event 100,001. Behind `NoMemory` it is as with `play`.
    pub fn play_history(
        &mut self,
        alloc: Global,
        script: &Compiled,
        events: &Seq<RecordedEvent>,
    ) -> Result<(), ReplayStop>
        requires { script_of script.now ≡ S.script }
        ensures plays { OnOk result (PlaysHistory S.script events.now (from_first self.old) self.new) }
        ensures stops { IfErr result (λ stopped. HistoryStops S.script events.now (from_first self.old) self.new stopped) }
    {
        self.restart();
        for said in &events.items {
            self.play_event(alloc, script, said)?;
        }
        Ok(())
    }

    /// Applies what an event file says, of either format: see `play` and `play_history`.
    pub fn play_file(
        &mut self,
        alloc: Global,
        script: &Compiled,
        file: &EventFile,
    ) -> Result<(), ReplayStop>
        requires { script_of script.now ≡ S.script }
        ensures plays { OnOk result (PlaysFile S.script file.now (from_first self.old) self.new) }
        ensures stops { IfErr result (λ stopped. FileStops S.script file.now (from_first self.old) self.new stopped) }
    {
        match file {
            EventFile::Lines(lines) => self.play(alloc, script, lines),
            EventFile::Recorded(events) => self.play_history(alloc, script, events),
        }
    }
}
