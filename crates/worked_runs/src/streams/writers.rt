// Runs whose writer fails, tried at each byte: a beginning of the report is out, and the failure is told.

use crate::streams::failing::FailingWriter;
use crate::streams::texts::{Texts, answer};
use crate::streams::tries::Tries;
use raysim_commands::{CommandRefusal, Failure};
use std::alloc::{AllocError, Global};

/// The writer fails at each byte of the report: a beginning of it is out, and the failure is told.
pub fn writes_fail(alloc: Global, texts: &Texts) -> Result<Tries, AllocError> {
    let mut tries = Tries::new();
    let mut report: Vec<u8> = Vec::new(alloc);
    let whole = answer(
        alloc,
        texts.script.as_slice(),
        texts.events.as_slice(),
        &mut report,
    );
    tries.count(whole == Some(Ok(0)) && !report.is_empty());
    for room in 0..report.len() {
        let mut written: Vec<u8> = Vec::new(alloc);
        let writer = FailingWriter {
            written: &mut written,
            room,
        };
        let done = answer(
            alloc,
            texts.script.as_slice(),
            texts.events.as_slice(),
            writer,
        );
        let is_told = done == Some(Err(CommandRefusal::Failed(Failure::Write)));
        tries.count(is_told && written.as_slice() == &report[..room]);
    }
    Ok(tries)
}
