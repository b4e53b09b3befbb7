// Event files that are cut.

use crate::streams::texts::{Texts, answer};
use crate::streams::tries::Tries;
use raysim_commands::CommandRefusal;
use std::alloc::Global;

fn line_feeds(text: &[u8]) -> u64 {
    let mut count = 0u64;
    for byte in text {
        if *byte == b'\n' {
            count = count.saturating_add(1);
        }
    }
    count
}

/// Whether a cut file is answered as it must: with a report where it is empty or ends with a line feed, else with its last line.
fn is_answered(cut: &[u8], done: &Option<Result<u8, CommandRefusal>>, written: &[u8]) -> bool {
    let Some(done) = done else {
        return false;
    };
    match cut.last() {
        None | Some(b'\n') => done.is_ok() && !written.is_empty(),
        Some(_) => {
            let line = line_feeds(cut).saturating_add(1);
            *done == Err(CommandRefusal::BadLine { line }) && written.is_empty()
        }
    }
}

/// The events are cut after each byte.
pub fn cuts(alloc: Global, texts: &Texts) -> Tries {
    let mut tries = Tries::new();
    for place in 0..texts.events.len() + 1 {
        let mut written: Vec<u8> = Vec::new(alloc);
        let cut = &texts.events[..place];
        let done = answer(alloc, texts.script.as_slice(), cut, &mut written);
        tries.count(is_answered(cut, &done, written.as_slice()));
    }
    tries
}
