// Whether the files that a command writes are fit to be written, which is asked before anything is read or run.

use crate::told::{Stop, stopped};
use raysim_calls::Views;
use raysim_files::{FilePlace, first_clash, place_of, try_output};
use std::rt::Files;

/// The files that a command reads and writes.
#[derive(Clone, Copy)]
pub struct Paths<'a> {
    /// The script's file, which is read.
    pub script: &'a str,
    /// The event file or the plan, if there is one.
    pub beside: Option<&'a str>,
    /// What that file is called where a clash is told.
    pub beside_name: &'a str,
    /// Where the history is written, if it is.
    pub history: Option<&'a str>,
    /// Where the timeline, the lineage and the page are written, if they are.
    pub views: Views<'a>,
}

/// The system's name for the standard output.
const STANDARD_OUTPUT: &str = "/dev/stdout";

/// How many of the names that are compared are not written to by name: script, file beside it, standard output.
const KEPT: usize = 3;

impl<'a> Paths<'a> {
    /// What each name stands for: of those that are not written to, and then of the outputs.
    fn places<R: Files>(&self, rt: &R) -> [FilePlace<'a>; 7] {
        [
            place_of(rt, self.script),
            place(rt, self.beside),
            place_of(rt, STANDARD_OUTPUT),
            place(rt, self.history),
            place(rt, self.views.timeline),
            place(rt, self.views.lineage),
            place(rt, self.views.page),
        ]
    }

    /// The option of an output, and its file.
    fn output(&self, at: usize) -> (&'a str, &'a str) {
        match at {
            3 => ("--history", self.history.unwrap_or("")),
            4 => ("--timeline", self.views.timeline.unwrap_or("")),
            5 => ("--lineage", self.views.lineage.unwrap_or("")),
            _ => ("--page", self.views.page.unwrap_or("")),
        }
    }

    /// Whether a file is written beside the report.
    fn has_outputs(&self) -> bool {
        self.history.is_some() || !self.views.is_report_alone()
    }
}

fn place<'a, R: Files>(rt: &R, path: Option<&'a str>) -> FilePlace<'a> {
    match path {
        Some(path) => place_of(rt, path),
        None => FilePlace::Other,
    }
}

/// Whether each output can be written, and is no input and no other output. Where one isn't, that is told.
pub fn are_fit<R: Files + Eprint + AllocGlobal>(rt: &R, paths: &Paths<'_>) -> bool {
    if !paths.has_outputs() {
        return true;
    }
    let places = paths.places(rt);
    if let Some(clash) = first_clash(&places, KEPT) {
        tell_clash(rt, paths, clash.earlier, clash.later);
        return false;
    }
    is_fit(rt, paths.history)
        && is_fit(rt, paths.views.timeline)
        && is_fit(rt, paths.views.lineage)
        && is_fit(rt, paths.views.page)
}

/// Tells that an output is another file, too.
fn tell_clash<R: Eprint>(rt: &R, paths: &Paths<'_>, earlier: usize, later: usize) {
    let (option, file) = paths.output(later);
    let nothing = "nothing was run or written";
    let _ = match earlier {
        0 => eprintln!(rt; "{option} {file}: is the script itself; {nothing}"),
        1 => {
            let name = paths.beside_name;
            eprintln!(rt; "{option} {file}: is {name} itself; {nothing}")
        }
        2 => eprintln!(rt; "{option} {file}: is where the standard output goes; {nothing}"),
        _ => {
            let (other, _) = paths.output(earlier);
            eprintln!(rt; "{option} {file}: is the file of {other}, too; {nothing}")
        }
    };
}

/// Whether an output can be written, as far as that can be seen before. Where it can't, that is told.
fn is_fit<R: Files + Eprint + AllocGlobal>(rt: &R, path: Option<&str>) -> bool {
    let Some(path) = path else {
        return true;
    };
    match try_output(rt, path) {
        Ok(()) => true,
        Err(error) => {
            stopped(rt, Stop::writing(path, error));
            let _ = eprintln!(rt; "nothing was run or written");
            false
        }
    }
}
