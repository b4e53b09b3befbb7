// A list of events as an event file's lines.

ghost use Rattle.std.specs.Prelude.{◌≡◌, IfOk, map};
ghost use Rattle.event_files.specs.declared.line.Line.TheVariants as lines;
ghost use Rattle.fault_lists.specs.Lists.{event_lines};

use event_files::Line;
use ids::WorkerId;
use log_entries::Event;
use sequence::Seq;
use std::alloc::{AllocError, Global};

/// The events as lines of an event file, with a settle line behind them.
pub fn event_lines(alloc: Global, events: &[Event]) -> Result<Seq<Line>, AllocError>
    ensures { IfOk result (λ all. all ≡ event_lines events.now) }
{
    let mut all = Seq::new(alloc);
    for event in events {
        all.push(Line::Event(*event))?;
    }
    let nobody: Seq<WorkerId> = Seq::new(alloc);
    all.push(Line::Settle(nobody))?;
    Ok(all)
}
