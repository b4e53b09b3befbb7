// A worked run: a command with its script and events, and what has to come of it.

use std::alloc::{AllocError, Global};

/// What comes of a command: what it writes, its refusal as one line (empty where there is none), and its status.
#[derive(Drop)]
pub struct Outcome {
    /// What the command writes, whole.
    pub written: String,
    /// The refusal as one line, empty where there is none.
    pub refusal: String,
    /// The status that the program ends with.
    pub status: u8,
}

impl Outcome {
    /// Nothing is written, nothing refused, and the status is 0.
    pub fn new(alloc: Global) -> Outcome {
        Outcome {
            written: String::new(alloc),
            refusal: String::new(alloc),
            status: 0,
        }
    }
}

/// A command with its script, its cluster and its events, and what has to come of it. The point says in words what the case shows; `line`
/// is where the case begins in its file, counted from 1.
#[derive(Drop)]
pub struct Case {
    /// Where the case begins in its file, counted from 1.
    pub line: u64,
    /// The command with its options, as `state --at 3`, without the names of files.
    pub command: String,
    /// What the case shows, in words.
    pub point: String,
    /// The whole script, with the functions that stand in front of each.
    pub script: String,
    /// So many nodes, and so many slots at each: 1 and 4 where a case says nothing else.
    pub nodes: u8,
    pub slots: u8,
    /// The list of events or the plan, a line each; empty where the command takes none.
    pub events: String,
    /// What has to come of it.
    pub wanted: Outcome,
}

impl Case {
    /// A case whose script begins with these functions.
    pub fn new(
        alloc: Global,
        line: u64,
        command: &str,
        point: &str,
        functions: &str,
    ) -> Result<Case, AllocError> {
        Ok(Case {
            line,
            command: String::from_str(alloc, command)?,
            point: String::from_str(alloc, point)?,
            script: String::from_str(alloc, functions)?,
            nodes: 1,
            slots: 4,
            events: String::new(alloc),
            wanted: Outcome::new(alloc),
        })
    }
}
