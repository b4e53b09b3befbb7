// What a line of format 1 says: an event, or settle.

ghost use Rattle.std.specs.Prelude.{◌≡◌, IfOk};
ghost use Rattle.event_files.specs.Reading.{line_in, settle_in, workers_in};

use crate::event::read_event;
use crate::numbers::read_worker;
use crate::parts::{behind, parted};
use ids::WorkerId;
use log_entries::Event;
use sequence::Seq;
use std::alloc::{AllocError, Global};

/// What a line of an event file says.
#[derive(Drop)]
pub enum Line {
    /// The event happens next.
    Event(Event),
    /// The events that bring the run to rest happen, one after the other; the workers that stand here are left alone.
    Settle(Seq<WorkerId>),
}

/// The workers whose numbers stand there, with a space between two.
fn read_workers(alloc: Global, text: &[u8]) -> Result<Option<Seq<WorkerId>>, AllocError>
    ensures { IfOk result (λ workers. workers ≡ workers_in text.now) }
{
    let mut workers = Seq::new(alloc);
    let mut rest = text;
    while let Some((word, after)) = parted(rest, b' ') {
        let Some(worker) = read_worker(word) else {
            return Ok(None);
        };
        workers.push(worker)?;
        rest = after;
    }
    let Some(worker) = read_worker(rest) else {
        return Ok(None);
    };
    workers.push(worker)?;
    Ok(Some(workers))
}

/// The settle whose workers stand there.
fn read_settle(alloc: Global, text: &[u8]) -> Result<Option<Line>, AllocError>
    ensures { IfOk result (λ line. line ≡ settle_in text.now) }
{
    let Some(workers) = read_workers(alloc, text)? else {
        return Ok(None);
    };
    Ok(Some(Line::Settle(workers)))
}

/// What a line of an event file says, without its line feed; no other text is one.
#[tactic(auto, unfolding(crate::specs::Reading::line_in))]
pub fn read_line(alloc: Global, text: &[u8]) -> Result<Option<Line>, AllocError>
    ensures { IfOk result (λ line. line ≡ line_in text.now) }
{
    if text == b"settle".as_slice() {
        return Ok(Some(Line::Settle(Seq::new(alloc))));
    }
    if let Some(rest) = behind(b"settle but ", text) {
        return read_settle(alloc, rest);
    }
    Ok(read_event(text).map(Line::Event))
}
