// What is told on standard error while a run goes on. Where that can't be written, nothing is.

use log_entries::Entry;
use raysim_commands::{TrialWatcher, Watcher};
use run_watch::{RunCounts, counts_of, prints_text, progress_line};
use seats::Gate;
use std::rt::Clock;
use std::sync::{Mutex, Wait};
use std::time::{Duration, Instant};

/// Where the standard error goes.
#[derive(Clone, Copy, Debug, PartialEq, Eq)]
pub enum ErrorsGo {
    /// To somebody who looks on: once a run has gone on for two seconds it is told unasked how far it is.
    ToATerminal,
    /// To a file or another program: nothing is told there but what was asked for.
    Elsewhere,
}

/// When it is told how far a run is.
#[derive(Clone, Copy, Debug, PartialEq, Eq)]
enum Telling {
    Never,
    AfterTwoSeconds,
    FromTheStart,
}

/// What is told while a run goes on: how far it is, and what main prints.
#[derive(Clone, Copy)]
pub struct Asked {
    progress: Telling,
    stream: bool,
}

impl Asked {
    /// What is told where the words ask for that, or not.
    pub fn of(errors: ErrorsGo, progress: bool, stream: bool) -> Asked {
        let telling = if progress {
            Telling::FromTheStart
        } else if errors == ErrorsGo::ToATerminal {
            Telling::AfterTwoSeconds
        } else {
            Telling::Never
        };
        Asked {
            progress: telling,
            stream,
        }
    }

    /// Whether anything may be told.
    fn is_any(&self) -> bool {
        self.stream || self.progress != Telling::Never
    }
}

/// How many milliseconds a run goes on before it is told how far it is, where that isn't asked for.
const QUIET: u128 = 2000;

/// How many milliseconds are between two lines.
const PAUSE: u128 = 200;

/// A line on standard error that is rewritten.
#[derive(Drop)]
struct Line<'a, R> {
    rt: &'a R,
    telling: Telling,
    start: Option<Instant>,
    /// How many milliseconds after the start the last line was written, where one was.
    last: Option<u128>,
    /// A line stands there that has no line feed yet.
    is_open: bool,
}

impl<'a, R: Eprint + Clock> Line<'a, R> {
    fn new(rt: &'a R, telling: Telling) -> Line<'a, R> {
        let start = match telling {
            Telling::Never => None,
            _ => Instant::now(rt).ok(),
        };
        Line {
            rt,
            telling,
            start,
            last: None,
            is_open: false,
        }
    }

    /// How long it is since the start, where a line is due.
    fn due(&self) -> Option<Duration> {
        let passed = self.passed()?;
        let now = passed.as_millis();
        if self.telling == Telling::AfterTwoSeconds && now < QUIET {
            return None;
        }
        match self.last {
            Some(last) if now.saturating_sub(last) < PAUSE => None,
            _ => Some(passed),
        }
    }

    /// How long it is since the start.
    fn passed(&self) -> Option<Duration> {
        let start = self.start?;
        start.elapsed(self.rt).ok()
    }

    /// Writes the line over the one before.
    fn write(&mut self, text: &str, passed: Duration) {
        let _ = eprint!(self.rt; "\r{text}");
        self.last = Some(passed.as_millis());
        self.is_open = true;
    }

    /// Ends the line that stands there, if one does.
    fn close(&mut self) {
        if self.is_open {
            let _ = eprintln!(self.rt;);
            self.is_open = false;
        }
    }
}

/// Tells how far a run is and what main prints.
#[derive(Drop)]
pub struct Life<'a, R> {
    line: Line<'a, R>,
    stream: bool,
    /// How many entries of the log were seen.
    seen: usize,
    counts: RunCounts,
}

impl<'a, R: Eprint + AllocGlobal + Clock> Life<'a, R> {
    /// Tells what is asked for, of a run of whose log nothing was seen yet.
    pub fn new(rt: &'a R, asked: Asked) -> Life<'a, R> {
        Life {
            line: Line::new(rt, asked.progress),
            stream: asked.stream,
            seen: 0,
            counts: RunCounts::new(),
        }
    }

    /// Whether anything may be told. Where nothing is, the log isn't looked at.
    fn is_watching(&self) -> bool {
        self.stream || self.line.telling != Telling::Never
    }

    /// Writes what main printed.
    fn write_prints(&mut self, log: &[Entry]) {
        let Ok(text) = prints_text(self.line.rt.alloc(), log) else {
            return;
        };
        if !text.is_empty() {
            self.line.close();
            let _ = eprint!(self.line.rt; "{text}");
        }
    }

    /// Whether a last line is told where the run is over: one was told already, or is asked for, and there was a run.
    fn is_last_due(&self) -> bool {
        self.line.last.is_some() || (self.line.telling == Telling::FromTheStart && self.seen > 0)
    }

    /// Tells how far the run is, so long after its start.
    fn tell(&mut self, passed: Duration) {
        let told = progress_line(self.line.rt.alloc(), self.counts, passed.as_secs());
        if let Ok(text) = told {
            self.line.write(text.as_str(), passed);
        }
    }

    /// Looks at what is new in the log, where there is anything.
    #[inline(never)]
    fn look_on(&mut self, log: &[Entry]) {
        if self.seen >= log.len() {
            return;
        }
        let more = &log[self.seen..];
        self.seen = log.len();
        self.counts = self.counts.and(&counts_of(more));
        if self.stream {
            self.write_prints(more);
        }
        if let Some(passed) = self.line.due() {
            self.tell(passed);
        }
    }
}

impl<R: Eprint + AllocGlobal + Clock> Watcher for Life<'_, R> {
    #[inline(always)]
    fn look(&mut self, log: &[Entry]) {
        if self.is_watching() {
            self.look_on(log);
        }
    }

    fn close(&mut self) {
        if self.is_last_due() {
            if let Some(passed) = self.line.passed() {
                self.tell(passed);
            }
        }
        self.line.telling = Telling::Never;
        self.line.last = None;
        self.line.close();
    }
}

/// Tells the same of a run that threads share.
#[derive(Drop)]
pub struct SharedLife<'a, R> {
    rt: &'a R,
    asked: Asked,
    life: Mutex<Life<'a, R>>,
}

impl<'a, R: Eprint + AllocGlobal + Clock + Wait> SharedLife<'a, R> {
    /// Tells what is asked for, of a run of whose log nothing was seen yet; the threads of the run lock it to tell something.
    pub fn new(rt: &'a R, asked: Asked) -> SharedLife<'a, R> {
        SharedLife {
            rt,
            asked,
            life: Mutex::new(Life::new(rt, asked)),
        }
    }

    /// The run is over.
    pub fn close(&self) {
        self.life.lock(self.rt).close();
    }
}

impl<R: Eprint + AllocGlobal + Clock + Wait> Gate for SharedLife<'_, R> {
    fn enter(&self, _job: u64) {}

    fn is_watching(&self) -> bool {
        self.asked.is_any()
    }

    fn look(&self, log: &[Entry]) {
        self.life.lock(self.rt).look(log);
    }
}

/// Tells how many lists were tried.
#[derive(Drop)]
pub struct TrialLife<'a, R> {
    line: Line<'a, R>,
}

impl<'a, R: Eprint + AllocGlobal + Clock> TrialLife<'a, R> {
    /// Tells how many lists were tried, if progress is asked for; what main prints is never told here.
    pub fn new(rt: &'a R, asked: Asked) -> TrialLife<'a, R> {
        TrialLife {
            line: Line::new(rt, asked.progress),
        }
    }

    fn tell(&mut self, count: usize, all: usize, passed: Duration) {
        let seconds = passed.as_secs();
        let lists = if all == 1 { "list" } else { "lists" };
        let text = format!(in self.line.rt.alloc(); "{count} of {all} {lists} tried, {seconds} s");
        if let Ok(text) = text {
            self.line.write(text.as_str(), passed);
        }
    }
}

impl<R: Eprint + AllocGlobal + Clock> TrialWatcher for TrialLife<'_, R> {
    fn tried(&mut self, count: usize, all: usize) {
        if count == all {
            if self.line.telling == Telling::FromTheStart || self.line.is_open {
                if let Some(passed) = self.line.passed() {
                    self.tell(count, all, passed);
                }
            }
            self.line.close();
            return;
        }
        if let Some(passed) = self.line.due() {
            self.tell(count, all, passed);
        }
    }
}
