// What a command is called with.

ghost use Rattle.std.specs.Prelude.{◌≡◌};
ghost use Rattle.raysim_calls.specs.Calls.{is_report_alone, lineage_of, no_views, timeline_of};

use engine_text::Engine;
use log_words::Contents;
use raysim_options::ScriptOptions;
use run_commands::{Cluster, FaultChoice, Form};

/// The files to which the timeline, the lineage and the page are written, how their long lists are, and whether the report is written as far as it
/// goes where a run is stopped by a limit.
#[derive(Clone, Copy)]
pub struct Views<'a> {
    /// The file for the timeline, if one is asked for.
    pub timeline: Option<&'a str>,
    /// The file for the lineage, if one is asked for.
    pub lineage: Option<&'a str>,
    /// The file for the page, if one is asked for.
    pub page: Option<&'a str>,
    /// Whether these have all items of long lists.
    pub contents: Contents,
    /// Whether the report is written as far as it goes where a limit stops the run.
    pub so_far: bool,
}

/// A file, and what is written to it.
#[derive(Clone, Copy)]
pub struct View<'a> {
    /// The file.
    pub path: &'a str,
    /// What is written to it of the run.
    pub form: Form,
}

impl<'a> Views<'a> {
    /// Nothing but the report is written.
    pub fn none() -> Views<'a>
        ensures { result ≡ no_views }
    {
        Views {
            timeline: None,
            lineage: None,
            page: None,
            contents: Contents::Cut,
            so_far: false,
        }
    }

    /// Whether no other view is asked for, for which the run is made once more.
    pub fn is_report_alone(&self) -> bool
        ensures { result ≡ is_report_alone self.now }
    {
        if self.timeline.is_some() || self.lineage.is_some() {
            return false;
        }
        self.page.is_none()
    }

    /// The timeline's file, if one is asked for.
    pub fn timeline(&self) -> Option<View<'a>>
        ensures { result ≡ timeline_of self.now }
    {
        match self.timeline {
            Some(path) => Some(View {
                path,
                form: Form::Timeline(self.contents),
            }),
            None => None,
        }
    }

    /// The lineage's file, if one is asked for.
    pub fn lineage(&self) -> Option<View<'a>>
        ensures { result ≡ lineage_of self.now }
    {
        match self.lineage {
            Some(path) => Some(View {
                path,
                form: Form::Lineage(self.contents),
            }),
            None => None,
        }
    }
}

/// A run that is driven to its end.
#[derive(Clone, Copy)]
pub struct DriveCall<'a> {
    /// The script's file.
    pub script: &'a str,
    /// Whether a refusal's place is shown.
    pub explain: bool,
    /// The nodes that the run begins with, and their slots.
    pub cluster: Cluster,
    /// What is printed of it.
    pub form: Form,
    /// What is written of it beside that.
    pub views: Views<'a>,
    /// Whether it is told how far the run is while it goes on.
    pub progress: bool,
    /// Whether it is told what main prints while the run goes on.
    pub stream: bool,
}

/// A run on threads.
#[derive(Clone, Copy)]
pub struct ThreadsCall<'a> {
    /// How the script is run, but for the threads.
    pub drive: DriveCall<'a>,
    /// How many threads there are, from 1 to 8.
    pub threads: u8,
    /// The file with a plan of events to apply, if there is one.
    pub plan: Option<&'a str>,
    /// The file in which the events that were applied are recorded, if they are.
    pub history: Option<&'a str>,
}

/// A script and an event file that is replayed on it.
#[derive(Clone, Copy)]
pub struct ReplayCall<'a> {
    /// The script's file.
    pub script: &'a str,
    /// The event file.
    pub events: &'a str,
    /// The nodes that the run begins with, and their slots.
    pub cluster: Cluster,
    /// Whether a refusal's place is shown.
    pub explain: bool,
}

/// A run that is tried with a fault at each of its places.
#[derive(Clone, Copy)]
pub struct FaultsCall<'a> {
    /// The script's file.
    pub script: &'a str,
    /// The file with the list of events; with none the run goes on to its end by itself.
    pub events: Option<&'a str>,
    /// The nodes that the run begins with, and their slots.
    pub cluster: Cluster,
    /// Which kinds of faults are tried.
    pub choice: FaultChoice,
    /// How many lists are tried at most.
    pub most: usize,
    /// The folder in which the first list for each different end is written, if it is.
    pub out: Option<&'a str>,
    /// Whether a refusal's place is shown.
    pub explain: bool,
    /// Whether it is told how many lists were tried while it goes on.
    pub progress: bool,
}

/// What is done for a request.
#[derive(Drop)]
pub enum Call<'a> {
    /// The script is checked.
    Check(ScriptOptions<'a>),
    /// It is run with each remote call as a plain call.
    Serial(ScriptOptions<'a>),
    /// It is written as a program for that engine.
    Export(Engine, ScriptOptions<'a>),
    /// It is run to its end.
    Drive(DriveCall<'a>),
    /// It is run on threads.
    OnThreads(ThreadsCall<'a>),
    /// It is run by an event file, and that is printed of it and written beside.
    Replay(ReplayCall<'a>, Form, Views<'a>),
    /// The event file is written as one of format 2.
    Migrate(ReplayCall<'a>),
    /// It is told what is alive behind the event of that number.
    StateAt(ReplayCall<'a>, usize),
    /// A fault is tried at each place.
    Faults(FaultsCall<'a>),
    /// It is told what a number or a name means.
    Explain(&'a str),
}

/// Which word of a request is at fault.
#[derive(Clone, Copy)]
pub enum CallFault<'a> {
    /// It names no engine.
    NoEngine(&'a str),
    /// It names no object, worker or node.
    NoName(&'a str),
    /// It is no number of an event.
    NoNumber(&'a str),
    /// It names no kind of fault.
    NoKind(&'a str),
    /// It is no number of lists.
    NoCount(&'a str),
    /// A run on threads has no report up to where it stops.
    SoFarOnThreads,
}
