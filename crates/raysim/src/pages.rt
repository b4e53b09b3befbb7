// The page of a run.

use crate::reasons::Known;
use crate::told::tell_beside;
use crate::views::write_done;
use raysim_calls::Views;
use raysim_commands::{Cluster, CommandRefusal, Tracked, page};
use std::rt::Files;

/// Does the run once more by its events, and writes its page, if one is asked for; says whether it is out.
pub fn is_page_written<R: Files + Eprint + AllocGlobal>(
    rt: &R,
    script: &[u8],
    events: &[u8],
    cluster: Cluster,
    views: &Views<'_>,
    report: &Result<u8, CommandRefusal>,
) -> bool {
    let Some(path) = views.page else {
        return true;
    };
    let mut shown = Vec::new(rt.alloc());
    let done = page(
        rt.alloc(),
        &mut Tracked::reader(script),
        &mut Tracked::reader(events),
        cluster,
        views.contents,
        &mut Tracked::writer(&mut shown),
    );
    match write_done(rt, path, done, shown.as_slice()) {
        Ok(()) => true,
        Err(stop) => {
            let known = Known::of_replay(script, events, cluster);
            tell_beside(rt, stop, &known, path, report);
            false
        }
    }
}
