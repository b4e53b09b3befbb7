// Runs whose reader fails, tried at each byte: the failure is told, and nothing is written.

use crate::streams::texts::{Texts, answer, failing_at};
use crate::streams::tries::Tries;
use raysim_commands::{CommandRefusal, Failure};
use std::alloc::Global;

/// Whether a failed read is told as one, and nothing is written.
fn is_failed_read(done: &Option<Result<u8, CommandRefusal>>, written: &[u8]) -> bool {
    *done == Some(Err(CommandRefusal::Failed(Failure::Read))) && written.is_empty()
}

/// The script's reader fails at each byte, and behind the last.
pub fn scripts_fail(alloc: Global, texts: &Texts) -> Tries {
    let mut tries = Tries::new();
    for place in 0..texts.script.len() + 1 {
        let mut written: Vec<u8> = Vec::new(alloc);
        let script = failing_at(texts.script.as_slice(), place);
        let done = answer(alloc, script, texts.events.as_slice(), &mut written);
        tries.count(is_failed_read(&done, written.as_slice()));
    }
    tries
}

/// The events' reader fails at each byte, and behind the last.
pub fn events_fail(alloc: Global, texts: &Texts) -> Tries {
    let mut tries = Tries::new();
    for place in 0..texts.events.len() + 1 {
        let mut written: Vec<u8> = Vec::new(alloc);
        let events = failing_at(texts.events.as_slice(), place);
        let done = answer(alloc, texts.script.as_slice(), events, &mut written);
        tries.count(is_failed_read(&done, written.as_slice()));
    }
    tries
}
