// Event files and plans that are read, and lines that are refused.

use crate::checks::failed::{Checked, Failed, wants};
use event_files::{Line, RunPlan, parse_events, parse_plan, print_events};
use ids::{NodeId, WorkerId};
use log_entries::Event;
use sequence::Seq;
use std::alloc::Global;

/// Whether the file's lines are a join, a settle line with two workers, and one with none named.
fn are_lines(lines: &Seq<Line>) -> bool {
    if lines.len() != 3 || !matches!(lines.get(0), Line::Event(Event::Join)) {
        return false;
    }
    match lines.get(1) {
        Line::Settle(workers) => workers.as_slice() == [WorkerId(2), WorkerId(3)].as_slice(),
        Line::Event(_) => false,
    }
}

/// Whether the plan's second line is the death of worker 3 behind 12 commits.
fn is_plan(plan: &RunPlan) -> bool {
    if plan.lines.len() != 2 {
        return false;
    }
    let line = plan.lines.get(1);
    line.commits == 12 && line.event == Event::Kill(WorkerId(3))
}

/// Events are printed in their lines, and the lines of a file and of a plan are read.
pub fn files_and_plans_are_read_and_written(alloc: Global) -> Checked {
    let written = [
        Event::Claim(WorkerId(1)),
        Event::NoticeNode {
            worker: WorkerId(1),
            dead: NodeId(2),
        },
    ];
    let text = print_events(alloc, written.as_slice())?;
    wants(
        text.as_str() == "claim 1\nnotice-node 1 2\n",
        "the printed events",
    )?;
    let file = "# a run\n\njoin\nsettle but 2 3\nsettle\n";
    let Ok(lines) = parse_events(alloc, file.as_bytes()) else {
        return Err(Failed("the file isn't read"));
    };
    wants(are_lines(&lines), "the file's lines")?;
    let Ok(plan) = parse_plan(alloc, "0 join\n12 kill 3\n".as_bytes()) else {
        return Err(Failed("the plan isn't read"));
    };
    wants(is_plan(&plan), "the plan's lines")
}
