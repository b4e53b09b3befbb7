// Worked event files, read and written by streams that fail.

mod cuts;
mod failing;
mod readers;
mod texts;
mod tries;
mod writers;

use crate::streams::texts::Texts;
use crate::streams::tries::Tries;
use std::io;
use std::rt::Files;

/// Tries a script with its events, tells what came of it, and says whether all is as it must.
fn try_texts<R: Print + AllocGlobal>(rt: &R, name: &str, texts: &Texts) -> io::Result<bool> {
    let alloc = rt.alloc();
    let mut good = true;
    for (what, tries) in [
        (
            "reads of the script fail",
            readers::scripts_fail(alloc, texts),
        ),
        (
            "reads of the events fail",
            readers::events_fail(alloc, texts),
        ),
        ("writes fail", writers::writes_fail(alloc, texts)?),
        ("cuts of the events", cuts::cuts(alloc, texts)),
    ] {
        let Tries { all, others } = tries;
        println!(rt; "{name}: {all} {what}, {others} differ")?;
        if others > 0 {
            good = false;
        }
    }
    Ok(good)
}

/// Tries each script that is named with the event file that is named behind it, and says whether all is as it must.
pub fn try_pairs<R: Files + Print + AllocGlobal>(rt: &R, names: &[String]) -> io::Result<bool> {
    let mut good = true;
    for pair in names.chunks(2) {
        let [script, events] = pair else {
            println!(rt; "an event file is named behind each script")?;
            return Ok(false);
        };
        let texts = Texts::read(rt, script.as_str(), events.as_str())?;
        if !try_texts(rt, script.as_str(), &texts)? {
            good = false;
        }
    }
    Ok(good)
}
