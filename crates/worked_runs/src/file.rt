// A file of cases, line by line.

use crate::case::Case;
use crate::line::{Line, line_of};
use std::alloc::{AllocError, Global};

/// What has been read of a file: how many lines, the functions that stand in front of each script, and the case that the last lines
/// belong to.
#[derive(Drop)]
pub struct Reading {
    lines: u64,
    functions: String,
    case: Option<Case>,
}

/// What a line ends.
#[derive(Drop)]
pub enum Read {
    /// The case before it, where it begins another.
    Whole(Case),
    /// Nothing.
    GoesOn,
    /// The line is none of such a file, or stands where it may not.
    BadLine,
}

fn add_line(text: &mut String, line: &str) -> Result<(), AllocError> {
    text.push_str(line)?;
    text.push('\n')?;
    Ok(())
}

fn add_lines(text: &mut String, times: u32, line: &str) -> Result<(), AllocError> {
    for _ in 0..times {
        add_line(text, line)?;
    }
    Ok(())
}

/// Adds a line of a case to it, and says whether it is one.
fn add_to_case(case: &mut Case, line: Line<'_>) -> Result<bool, AllocError> {
    match line {
        Line::Script(text) => add_line(&mut case.script, text)?,
        Line::Part { times, text } => {
            for _ in 0..times {
                case.script.push_str(text)?;
            }
        }
        Line::Event { times, text } => add_lines(&mut case.events, times, text)?,
        Line::EventPart(text) => case.events.push_str(text)?,
        Line::Cluster { nodes, slots } => {
            case.nodes = nodes;
            case.slots = slots;
        }
        Line::Written { times, text } => add_lines(&mut case.wanted.written, times, text)?,
        Line::Refusal(text) => case.wanted.refusal.push_str(text)?,
        Line::Status(status) => case.wanted.status = status,
        _ => return Ok(false),
    }
    Ok(true)
}

impl Reading {
    /// Nothing has been read.
    pub fn new(alloc: Global) -> Reading {
        Reading {
            lines: 0,
            functions: String::new(alloc),
            case: None,
        }
    }

    /// The case that the lines so far end with.
    pub fn last(self) -> Option<Case> {
        let Reading {
            lines: _,
            functions: _,
            case,
        } = self;
        case
    }

    fn begin(&mut self, alloc: Global, command: &str, point: &str) -> Result<Read, AllocError> {
        let case = Case::new(alloc, self.lines, command, point, self.functions.as_str())?;
        match self.case.replace(case) {
            Some(whole) => Ok(Read::Whole(whole)),
            None => Ok(Read::GoesOn),
        }
    }

    fn begin_functions(&mut self) -> Read {
        self.functions.clear();
        match self.case.take() {
            Some(whole) => Read::Whole(whole),
            None => Read::GoesOn,
        }
    }

    fn add(&mut self, line: Line<'_>) -> Result<Read, AllocError> {
        if let Some(case) = &mut self.case {
            if add_to_case(case, line)? {
                return Ok(Read::GoesOn);
            }
            return Ok(Read::BadLine);
        }
        match line {
            Line::Script(text) => {
                add_line(&mut self.functions, text)?;
                Ok(Read::GoesOn)
            }
            _ => Ok(Read::BadLine),
        }
    }

    /// Reads the next line.
    pub fn read(&mut self, alloc: Global, line: &str) -> Result<Read, AllocError> {
        self.lines = self.lines.saturating_add(1);
        let Some(found) = line_of(line) else {
            return Ok(Read::BadLine);
        };
        match found {
            Line::Nothing => Ok(Read::GoesOn),
            Line::Functions => Ok(self.begin_functions()),
            Line::Begins { command, point } => self.begin(alloc, command, point),
            other => self.add(other),
        }
    }
}
