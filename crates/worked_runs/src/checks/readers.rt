// A reader that fails is told as a failed read, and nothing is written.

use crate::checks::failed::{Checked, Failed, wants};
use raysim_commands::{
    Cluster, CommandRefusal, Failure, Form, RunMemory, Tracked, Unwatched, check, run, serial,
};
use std::alloc::Global;
use std::io;
use std::io::Read;

/// A reader that fails.
#[derive(Drop)]
struct Broken;

impl Read for Broken {
    fn read(&mut self, _buf: &mut [u8]) -> io::Result<usize> {
        Err(io::Error::from(io::ErrorKind::Other))
    }
}

/// A script that can't be read is refused 50 by each command, and nothing is written.
pub fn a_failed_read_is_no_script(alloc: Global) -> Checked {
    let mut out = Vec::new(alloc);
    let mut sink = Tracked::writer(&mut out);
    let mut input = Tracked::reader(Broken);
    let failed_read = Err(CommandRefusal::Failed(Failure::Read));
    let checked = check(alloc, &mut input, &mut sink);
    wants(checked == failed_read, "check")?;
    let ran_serially = serial(alloc, &mut input, &mut sink);
    wants(ran_serially == failed_read, "serial")?;
    let Some(cluster) = Cluster::new(1, 4) else {
        return Err(Failed("there is no such cluster"));
    };
    let ran = run(
        alloc,
        &mut input,
        cluster,
        Form::Text,
        RunMemory::GivenBack,
        &mut sink,
        &mut Unwatched,
    );
    wants(ran == failed_read, "run")?;
    wants(out.is_empty(), "something is written")?;
    let texts = format!(in alloc;
        "{}, {}",
        CommandRefusal::NoMemory,
        CommandRefusal::Failed(Failure::Read)
    )?;
    wants(
        texts.as_str() == "refused 39, refused 50",
        "the refusals' texts",
    )
}
