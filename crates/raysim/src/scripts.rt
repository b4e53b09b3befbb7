// The commands that take a script alone: what they read, print and write.

use crate::inputs::read_script_file;
use crate::life::{Asked, Life};
use crate::limits::{SETTLED, print_so_far};
use crate::pages::is_page_written;
use crate::reasons::{Course, Known};
use crate::told::{Printed, tell, tell_beside};
use crate::traps::with_trap_of_run;
use crate::views::{memory_of, write_done};
use raysim_calls::{View, Views};
use raysim_commands::{
    Cluster, CommandRefusal, Engine, Form, RunMemory, Tracked, Unwatched, Watcher, check, export,
    run, serial,
};
use raysim_files::WithError;
use raysim_options::ScriptOptions;
use std::io;
use std::process::ExitCode;
use std::rt::{Clock, Files};

/// A command over a script.
#[derive(Clone, Copy)]
pub enum Command {
    /// Whether it is a script.
    Check,
    /// Its serial run.
    Serial,
    /// Its run on this cluster, in what form it is written, and what is told while it goes on.
    Run(Cluster, Form, Asked),
    /// Its program for that engine.
    Export(Engine),
}

/// Does a command, and tells why it stops where it does. Other views of a run are written behind its report, and also where that could not be
/// written.
pub fn over_script<R: Files + Print + Eprint + AllocGlobal + Clock>(
    rt: &R,
    command: &Command,
    options: &ScriptOptions<'_>,
    views: &Views<'_>,
) -> ExitCode {
    let text = match read_script_file(rt, options.script) {
        Ok(text) => text,
        Err(stop) => {
            tell(rt, stop, &known_of(command, options, b""));
            return ExitCode::FAILURE;
        }
    };
    let printed = print_done(rt, command, text.as_slice(), views);
    let printed = with_trap(rt, command, printed, text.as_slice());
    if let Some(stop) = printed.stop() {
        let known = known_of(command, options, text.as_slice());
        tell(rt, stop, &known);
        tell_so_far(rt, command, &printed, &known, views);
        if !stop.is_of_writing() {
            return printed.ending();
        }
    }
    if are_written(rt, command, text.as_slice(), views, &printed.done) {
        return printed.ending();
    }
    ExitCode::FAILURE
}

/// Prints the report of a run that was stopped by a limit, up to there, where that is asked for.
fn tell_so_far<R: Print + Eprint + AllocGlobal>(
    rt: &R,
    command: &Command,
    printed: &Printed,
    known: &Known<'_, '_>,
    views: &Views<'_>,
) {
    if let Command::Run(_, form, _) = command {
        print_so_far(rt, &printed.done, known, *form, views);
    }
}

/// What is known of a command that stops.
fn known_of<'a, 'b>(
    command: &Command,
    options: &ScriptOptions<'a>,
    text: &'b [u8],
) -> Known<'a, 'b> {
    let course = match command {
        Command::Run(cluster, _, _) => Some(Course::Driven(*cluster)),
        _ => None,
    };
    Known {
        explain: options.explain,
        script: options.script,
        text,
        list: None,
        course,
    }
}

/// Does a command, and prints what it gives.
fn print_done<R: Print + Eprint + AllocGlobal + Clock>(
    rt: &R,
    command: &Command,
    text: &[u8],
    views: &Views<'_>,
) -> Printed {
    let mut output = WithError::new(io::writer(rt));
    let mut reader = Tracked::reader(text);
    let mut writer = Tracked::writer(&mut output);
    let done = match command {
        Command::Check => check(rt.alloc(), &mut reader, &mut writer),
        Command::Serial => serial(rt.alloc(), &mut reader, &mut writer),
        Command::Run(cluster, form, asked) => {
            let mut life = Life::new(rt, *asked);
            let done = run(
                rt.alloc(),
                &mut reader,
                *cluster,
                *form,
                memory_of(form, views),
                &mut writer,
                &mut life,
            );
            life.close();
            done
        }
        Command::Export(engine) => export(rt.alloc(), &mut reader, *engine, &mut writer),
    };
    let error = output.error();
    Printed { done, error }
}

/// Prints the place of a trap below what `why` told, where it told of one.
fn with_trap<R: Print + AllocGlobal>(
    rt: &R,
    command: &Command,
    printed: Printed,
    text: &[u8],
) -> Printed {
    match command {
        Command::Run(cluster, form, _) => with_trap_of_run(rt, printed, text, *cluster, *form),
        _ => printed,
    }
}

/// Writes the other views of a run, and says whether all are out.
fn are_written<R: Files + Eprint + AllocGlobal>(
    rt: &R,
    command: &Command,
    text: &[u8],
    views: &Views<'_>,
    report: &Result<u8, CommandRefusal>,
) -> bool {
    let Command::Run(cluster, _, _) = command else {
        return true;
    };
    let timeline = is_written(rt, *cluster, text, &views.timeline(), report);
    let lineage = is_written(rt, *cluster, text, &views.lineage(), report);
    let page = is_page_written(rt, text, SETTLED, *cluster, views, report);
    timeline && lineage && page
}

/// Does the run once more, and writes a view of it, if one is asked for; says whether it is out.
fn is_written<R: Files + Eprint + AllocGlobal>(
    rt: &R,
    cluster: Cluster,
    text: &[u8],
    view: &Option<View<'_>>,
    report: &Result<u8, CommandRefusal>,
) -> bool {
    let Some(view) = view else {
        return true;
    };
    let mut shown = Vec::new(rt.alloc());
    let done = run(
        rt.alloc(),
        &mut Tracked::reader(text),
        cluster,
        view.form,
        RunMemory::GivenBack,
        &mut Tracked::writer(&mut shown),
        &mut Unwatched,
    );
    match write_done(rt, view.path, done, shown.as_slice()) {
        Ok(()) => true,
        Err(stop) => {
            tell_beside(rt, stop, &Known::nothing(), view.path, report);
            false
        }
    }
}
