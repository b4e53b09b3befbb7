// Where other views of a run are written.

use crate::told::Stop;
use raysim_calls::Views;
use raysim_commands::{CommandRefusal, Form, RunMemory};
use raysim_files::write_whole;
use std::rt::Files;

/// What becomes of the memory of the run whose report is written in that form: where the process ends behind it, it is left to that end.
pub fn memory_of(form: &Form, views: &Views<'_>) -> RunMemory {
    match form {
        Form::Text | Form::Json if views.is_report_alone() => RunMemory::LeftToTheEnd,
        _ => RunMemory::GivenBack,
    }
}

/// Writes what a command gave in memory to a file, whole or not at all.
pub fn write_done<'a, R: Files + AllocGlobal>(
    rt: &R,
    path: &'a str,
    done: Result<u8, CommandRefusal>,
    text: &[u8],
) -> Result<(), Stop<'a>> {
    if let Err(refusal) = done {
        return Err(Stop::Refused(in_memory(refusal)));
    }
    match write_whole(rt, path, text) {
        Ok(()) => Ok(()),
        Err(error) => Err(Stop::writing(path, error)),
    }
}

/// What a command refuses that writes in memory, where a write fails for want of memory alone.
pub fn in_memory(refusal: CommandRefusal) -> CommandRefusal {
    match refusal {
        CommandRefusal::Failed(_) => CommandRefusal::NoMemory,
        other => other,
    }
}
