// The subcommands, and what each of them takes.

/// How many nodes a cluster may begin with.
pub const MOST_NODES: u8 = 64;

/// How many slots a node may have.
pub const MOST_SLOTS: u8 = 64;

/// How many threads may run a script.
pub const MOST_THREADS: u8 = 8;

/// What a parameter is.
pub(crate) enum Kind<'a> {
    /// A word that has to be there.
    Needed,
    /// A word that may be left out.
    Optional,
    /// An option that is there or not.
    Flag,
    /// An option with a number from 1 to this.
    Number(u8),
    /// An option with a text, which help calls so.
    Worded(&'a str),
    /// Such an option, which has to be there.
    NeededWorded(&'a str),
}

/// What a subcommand takes.
pub(crate) struct Parameter<'a> {
    /// Its name, by which its value is found; of an option also what stands behind `--`.
    pub(crate) id: &'a str,
    pub(crate) kind: Kind<'a>,
    /// What its help says of it.
    pub(crate) help: &'a str,
}

/// A command of the program, from which its words are read and its help is made.
pub(crate) struct Subcommand<'a> {
    pub(crate) name: &'a str,
    /// What its help says that it does.
    pub(crate) about: &'a str,
    /// What it takes, in the order of its help: words without `--` stand in this order too.
    pub(crate) parameters: &'a [Parameter<'a>],
}

const SCRIPT: Parameter<'static> = Parameter {
    id: "script",
    kind: Kind::Needed,
    help: "The script's file",
};

const EXPLAIN: Parameter<'static> = Parameter {
    id: "explain",
    kind: Kind::Flag,
    help: "Shows the place of a refusal, what was expected there and what was found",
};

const EVENTS: Parameter<'static> = Parameter {
    id: "events",
    kind: Kind::Needed,
    help: "The event file, one event in each line",
};

/// The events of a run that else goes on to its end by itself.
const SOME_EVENTS: Parameter<'static> = Parameter {
    id: "events",
    kind: Kind::Optional,
    help: "The event file, one event in each line (if left out, the run goes on to its end by itself)",
};

const NODES: Parameter<'static> = Parameter {
    id: "nodes",
    kind: Kind::Number(MOST_NODES),
    help: "How many nodes the cluster begins with, from 1 to 64 (1 if left out)",
};

const SLOTS: Parameter<'static> = Parameter {
    id: "slots",
    kind: Kind::Number(MOST_SLOTS),
    help: "How many workers may run at once on each node, from 1 to 64 (4 if left out)",
};

const JSON: Parameter<'static> = Parameter {
    id: "json",
    kind: Kind::Flag,
    help: "Writes the report as one line of JSON",
};

const TIMELINE: Parameter<'static> = Parameter {
    id: "timeline",
    kind: Kind::Worded("FILE"),
    help: "Where the run's timeline is written, as Chrome's trace events (nowhere if left out)",
};

const LINEAGE: Parameter<'static> = Parameter {
    id: "lineage",
    kind: Kind::Worded("FILE"),
    help: "Where the graph of the run's objects is written, for Graphviz (nowhere if left out)",
};

const PAGE: Parameter<'static> = Parameter {
    id: "page",
    kind: Kind::Worded("FILE"),
    help: "Where the run is written as a page for a browser (nowhere if left out)",
};

/// What is full where views are written.
const FULL_VIEWS: Parameter<'static> = Parameter {
    id: "full",
    kind: Kind::Flag,
    help: "Writes all items of long lists in timeline, graph and page, of which else three are written",
};

/// What is full where a run is told.
const FULL_TELLING: Parameter<'static> = Parameter {
    id: "full",
    kind: Kind::Flag,
    help: "Writes all items of long lists, of which else three are written",
};

const SUMMARY: Parameter<'static> = Parameter {
    id: "summary",
    kind: Kind::Flag,
    help: "Writes behind the report what the run came to: each function's tasks, the messages and the events",
};

const SO_FAR: Parameter<'static> = Parameter {
    id: "so-far",
    kind: Kind::Flag,
    help: "Writes the report of a run that is stopped by a limit too, up to there, and no file beside it",
};

const PROGRESS: Parameter<'static> = Parameter {
    id: "progress",
    kind: Kind::Flag,
    help: "Tells on standard error how far it is, from the start on (if left out, on a terminal alone, after two seconds)",
};

const CHECK: Subcommand<'static> = Subcommand {
    name: "check",
    about: "Says ok where a script may be run, and else why not",
    parameters: &[SCRIPT, EXPLAIN],
};

const SERIAL: Subcommand<'static> = Subcommand {
    name: "serial",
    about: "Runs a script with each remote call as a plain call: what it prints and returns",
    parameters: &[SCRIPT, EXPLAIN],
};

/// What `sim` takes, in the order of its help. What is read by it is `sim_app` of specs/App.antt.
pub(crate) const SIM: Subcommand<'static> = Subcommand {
    name: "sim",
    about: "Runs a script by an event file, and writes the run's report",
    parameters: &[
        SCRIPT,
        EXPLAIN,
        EVENTS,
        NODES,
        SLOTS,
        JSON,
        TIMELINE,
        LINEAGE,
        PAGE,
        Parameter {
            id: "books",
            kind: Kind::Flag,
            help: "Writes behind the report how many commits came from each seat (of a thread its number, else 0), and the sum of their jobs",
        },
        FULL_VIEWS,
        SUMMARY,
        SO_FAR,
    ],
};

/// What `run` takes, in the order of its help. What is read by it is `run_app` of specs/App.antt.
pub(crate) const RUN: Subcommand<'static> = Subcommand {
    name: "run",
    about: "Runs a script, each remote call as a task, and writes the run's report",
    parameters: &[
        SCRIPT,
        EXPLAIN,
        Parameter {
            id: "threads",
            kind: Kind::Number(MOST_THREADS),
            help: "How many threads run the tasks, from 1 to 8 (if left out, 2 with a plan or a history, else the run is driven, one task after the other)",
        },
        NODES,
        SLOTS,
        Parameter {
            id: "plan",
            kind: Kind::Worded("FILE"),
            help: "A plan, whose events are applied at given times of the run (none if left out)",
        },
        Parameter {
            id: "history",
            kind: Kind::Worded("FILE"),
            help: "Where the events of the run are written, for sim to read (nowhere if left out)",
        },
        JSON,
        TIMELINE,
        LINEAGE,
        PAGE,
        FULL_VIEWS,
        SUMMARY,
        SO_FAR,
        PROGRESS,
        Parameter {
            id: "stream",
            kind: Kind::Flag,
            help: "Writes what main prints on standard error as it comes, before the report",
        },
    ],
};

const LOG: Subcommand<'static> = Subcommand {
    name: "log",
    about: "Tells what happened in a run, a line for each event and for what came of it",
    parameters: &[
        SCRIPT,
        EXPLAIN,
        SOME_EVENTS,
        NODES,
        SLOTS,
        Parameter {
            id: "messages",
            kind: Kind::Flag,
            help: "Tells below each event the messages that it sent, too",
        },
        FULL_TELLING,
        PAGE,
    ],
};

const WHY: Subcommand<'static> = Subcommand {
    name: "why",
    about: "Tells why an object, a worker or a node of a run is as it is, or why main ended",
    parameters: &[
        SCRIPT,
        EXPLAIN,
        SOME_EVENTS,
        Parameter {
            id: "what",
            kind: Kind::Optional,
            help: "The object, worker or node, as o1.2, w3 or n1 (if left out, why main ended or what it waits for is told)",
        },
        NODES,
        SLOTS,
        FULL_TELLING,
    ],
};

const FAULTS: Subcommand<'static> = Subcommand {
    name: "faults",
    about: "Tries a fault at every place of a script's run, and tells which of them main doesn't survive",
    parameters: &[
        SCRIPT,
        EXPLAIN,
        Parameter {
            id: "events",
            kind: Kind::Optional,
            help: "The run's event file, one event in each line (if left out, the run goes on to its end by itself)",
        },
        NODES,
        SLOTS,
        Parameter {
            id: "of",
            kind: Kind::Worded("KINDS"),
            help: "Which faults are tried, as kill,lose: of kill, notice (kill and tell main's worker), kill-node, lose, evict (if left out, all but evict)",
        },
        Parameter {
            id: "most",
            kind: Kind::Worded("K"),
            help: "How many lists of events are tried at most (all if left out)",
        },
        Parameter {
            id: "out",
            kind: Kind::Worded("DIR"),
            help: "The folder in which the first list for each different end is written, for sim, log and why to read (nowhere if left out)",
        },
        PROGRESS,
    ],
};

const MIGRATE: Subcommand<'static> = Subcommand {
    name: "migrate",
    about: "Writes an event file as one of format 2, in which each event names the seat from which it came",
    parameters: &[SCRIPT, EXPLAIN, EVENTS, NODES, SLOTS],
};

const EXPLANATION: Subcommand<'static> = Subcommand {
    name: "explain",
    about: "Tells in words what a refusal, a fault or a trap means, with an example",
    parameters: &[Parameter {
        id: "what",
        kind: Kind::Needed,
        help: "The number after the word refused, or a name as NoWorker, OwnerDied or DivZero",
    }],
};

const EXPORT: Subcommand<'static> = Subcommand {
    name: "export",
    about: "Writes a script as a Python program that runs it on an engine of many machines",
    parameters: &[
        SCRIPT,
        EXPLAIN,
        Parameter {
            id: "to",
            kind: Kind::NeededWorded("ENGINE"),
            help: "The engine: dask or ray",
        },
    ],
};

const STATE: Subcommand<'static> = Subcommand {
    name: "state",
    about: "Tells what is alive in a run by an event file: nodes, workers, and objects with who holds them",
    parameters: &[
        SCRIPT,
        EXPLAIN,
        EVENTS,
        NODES,
        SLOTS,
        Parameter {
            id: "at",
            kind: Kind::Worded("N"),
            help: "The number of the event behind which it is told, as log counts them (the last if left out)",
        },
    ],
};

/// All of them, as help lists them.
pub(crate) const SUBCOMMANDS: &[Subcommand<'static>] = &[
    CHECK,
    SERIAL,
    SIM,
    RUN,
    LOG,
    WHY,
    FAULTS,
    MIGRATE,
    EXPLANATION,
    EXPORT,
    STATE,
];
