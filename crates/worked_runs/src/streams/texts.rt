// The texts of a script and of an event file, and what comes of them.

use crate::streams::failing::FailingReader;
use raysim_commands::{Cluster, CommandRefusal, Form, RunMemory, Tracked, sim};
use std::alloc::Global;
use std::io::{Read, Write};
use std::rt::Files;
use std::{fs, io};

/// The texts of a script and of an event file.
#[derive(Drop)]
pub struct Texts {
    pub script: Vec<u8>,
    pub events: Vec<u8>,
}

impl Texts {
    /// Reads both files.
    pub fn read<R: Files + AllocGlobal>(rt: &R, script: &str, events: &str) -> io::Result<Texts> {
        Ok(Texts {
            script: fs::read(rt, script)?,
            events: fs::read(rt, events)?,
        })
    }
}

/// What `sim` answers on one node with four slots.
pub fn answer<A: Read + Drop, B: Read + Drop, W: Write + Drop>(
    alloc: Global,
    script: A,
    events: B,
    writer: W,
) -> Option<Result<u8, CommandRefusal>> {
    let cluster = Cluster::new(1, 4)?;
    let mut script = Tracked::reader(script);
    let mut events = Tracked::reader(events);
    let mut writer = Tracked::writer(writer);
    Some(sim(
        alloc,
        &mut script,
        &mut events,
        cluster,
        Form::Text,
        RunMemory::GivenBack,
        &mut writer,
    ))
}

/// A reader of the first bytes of a text that then fails.
pub fn failing_at(text: &[u8], place: usize) -> FailingReader<'_> {
    FailingReader {
        bytes: &text[..place.min(text.len())],
    }
}
