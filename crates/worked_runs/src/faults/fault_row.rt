// Rows, read from a file.

use std::alloc::{AllocError, Global};

/// A script with its cluster and the events of its run without a fault, one in each line.
#[derive(Drop)]
pub struct Row {
    /// What the row is called where it is told.
    pub name: String,
    /// The whole script, with the file's functions in front.
    pub script: String,
    /// How many nodes the cluster begins with.
    pub nodes: u8,
    /// How many slots each node has.
    pub slots: u8,
    /// The events of its run without a fault, one in each line.
    pub events: String,
}

/// What has been read of a file: the functions that stand in front of each script, and the row that the last lines belong to.
#[derive(Drop)]
pub struct Reading {
    functions: String,
    row: Option<Row>,
}

/// What a line ends.
#[derive(Drop)]
pub enum Read {
    /// The row before it, where it begins another.
    Whole(Row),
    /// Nothing.
    GoesOn,
    /// The line is none of such a file, or stands where it may not.
    BadLine,
}

fn add_line(text: &mut String, line: &str) -> Result<(), AllocError> {
    text.push_str(line)?;
    text.push('\n')?;
    Ok(())
}

fn small_number(text: &str) -> Option<u8> {
    match text.parse::<u8>() {
        Ok(number) => Some(number),
        Err(_) => None,
    }
}

/// Two numbers with a blank between them.
fn cluster(text: &str) -> Option<(u8, u8)> {
    let (nodes, slots) = text.split_once(' ')?;
    Some((small_number(nodes)?, small_number(slots)?))
}

/// Adds a line to a row, and says whether it is one.
fn add_to_row(row: &mut Row, mark: &str, text: &str) -> Result<bool, AllocError> {
    if mark == ">" {
        add_line(&mut row.script, text)?;
        return Ok(true);
    }
    if mark == "@" {
        add_line(&mut row.events, text)?;
        return Ok(true);
    }
    if mark != "cluster" {
        return Ok(false);
    }
    let Some((nodes, slots)) = cluster(text) else {
        return Ok(false);
    };
    row.nodes = nodes;
    row.slots = slots;
    Ok(true)
}

impl Reading {
    /// Nothing has been read.
    pub fn new(alloc: Global) -> Reading {
        Reading {
            functions: String::new(alloc),
            row: None,
        }
    }

    /// The row that the lines so far end with.
    pub fn last(self) -> Option<Row> {
        let Reading { functions: _, row } = self;
        row
    }

    fn begin(&mut self, alloc: Global, name: &str) -> Result<Read, AllocError> {
        let row = Row {
            name: String::from_str(alloc, name)?,
            script: String::from_str(alloc, self.functions.as_str())?,
            nodes: 1,
            slots: 4,
            events: String::new(alloc),
        };
        match self.row.replace(row) {
            Some(whole) => Ok(Read::Whole(whole)),
            None => Ok(Read::GoesOn),
        }
    }

    /// Reads the next line: `row NAME` begins a row, `> TEXT` is a line of its script, `@ TEXT` one of its events, and `cluster N S` says how many nodes
    /// there are, and how many slots at each, 1 and 4 if it is left out. Lines of script before the first row stand in front of each script; empty
    /// lines and lines that begin with `#` say nothing.
    pub fn read(&mut self, alloc: Global, line: &str) -> Result<Read, AllocError> {
        if line.is_empty() || line.starts_with('#') {
            return Ok(Read::GoesOn);
        }
        let Some((mark, text)) = line.split_once(' ') else {
            return Ok(Read::BadLine);
        };
        if mark == "row" {
            return self.begin(alloc, line);
        }
        if let Some(row) = &mut self.row {
            if add_to_row(row, mark, text)? {
                return Ok(Read::GoesOn);
            }
            return Ok(Read::BadLine);
        }
        if mark == ">" {
            add_line(&mut self.functions, text)?;
            return Ok(Read::GoesOn);
        }
        Ok(Read::BadLine)
    }
}
