// A fault at every place of a run.

use crate::heads::tell_misfits;
use crate::inputs;
use crate::inputs::{ReadEvents, read_script_file, shown_bytes};
use crate::life::{Asked, TrialLife};
use crate::limits::SETTLED;
use crate::reasons::{Course, Known, List};
use crate::replays::Texts;
use crate::told::{OUTPUT, Stop, fault, no_memory, stopped, tell};
use raysim_calls::FaultsCall;
use raysim_commands::{
    CommandRefusal, EndKind, FaultKind, Tracked, TriedFaults, faults, first_of, list_file,
};
use raysim_files::{WithError, try_output, write_whole};
use refusal_reasons::ListKind;
use std::alloc::{AllocError, Global};
use std::io::{Error, ErrorKind};
use std::process::ExitCode;
use std::rt::{Clock, Files};
use std::{fs, io};

/// The ends whose first lists are written.
const ENDS: [EndKind; 6] = [
    EndKind::Faulted(FaultKind::OwnerDied),
    EndKind::Faulted(FaultKind::PutLost),
    EndKind::Faulted(FaultKind::RetriesUsed),
    EndKind::Open,
    EndKind::Killed,
    EndKind::Stopped,
];

/// The name of the file of an end's first list.
fn file_name(kind: EndKind) -> &'static str {
    match kind {
        EndKind::AsSerial => "as_serial.ev",
        EndKind::Faulted(FaultKind::OwnerDied) => "owner_died.ev",
        EndKind::Faulted(FaultKind::PutLost) => "put_lost.ev",
        EndKind::Faulted(FaultKind::RetriesUsed) => "retries_used.ev",
        EndKind::Open => "open.ev",
        EndKind::Killed => "main_killed.ev",
        EndKind::Stopped => "stopped.ev",
    }
}

/// Tries a fault at every place of a run, writes the table, and the lists where they are asked for; why it stops, where it does, is told.
pub fn over_each_place<R: Files + Print + Eprint + AllocGlobal + Clock>(
    rt: &R,
    trial: &FaultsCall<'_>,
    asked: Asked,
) -> ExitCode {
    if let Some(folder) = trial.out {
        if !is_fit(rt, folder) {
            return ExitCode::FAILURE;
        }
    }
    try_faults(rt, trial, asked)
}

fn try_faults<R: Files + Print + Eprint + AllocGlobal + Clock>(
    rt: &R,
    trial: &FaultsCall<'_>,
    asked: Asked,
) -> ExitCode {
    let Some(texts) = read_texts(rt, trial) else {
        return ExitCode::FAILURE;
    };
    let mut output = WithError::new(io::writer(rt));
    let done = faults(
        rt.alloc(),
        &mut Tracked::reader(texts.script.as_slice()),
        &mut Tracked::reader(texts.events.as_slice()),
        trial.cluster,
        trial.choice,
        trial.most,
        &mut Tracked::writer(&mut output),
        &mut TrialLife::new(rt, asked),
    );
    let error = output.error();
    let ending = match done {
        Ok(tried) => write_lists(rt, trial, &tried),
        Err(refusal) => {
            let (text, events) = (texts.script.as_slice(), texts.events.as_slice());
            let stop = Stop::of_writer(refusal, OUTPUT, error);
            tell(rt, stop, &known_of(trial, text, events));
            ExitCode::FAILURE
        }
    };
    if let Some(file) = trial.events {
        let (front, text) = (texts.front.as_slice(), texts.script.as_slice());
        tell_misfits(rt, file, front, trial.cluster, trial.script, text);
    }
    ending
}

/// What is known of a trial that stops.
fn known_of<'a, 'b>(trial: &FaultsCall<'a>, text: &'b [u8], events: &'b [u8]) -> Known<'a, 'b> {
    let list = match trial.events {
        Some(file) => Some(List {
            kind: ListKind::Events,
            file,
            text: events,
        }),
        None => None,
    };
    Known {
        explain: trial.explain,
        script: trial.script,
        text,
        list,
        course: Some(Course::Replayed(trial.cluster)),
    }
}

/// Reads both files, or tells why they can't be read. Without a file of events the run is settled.
fn read_texts<R: Files + Eprint + AllocGlobal>(rt: &R, trial: &FaultsCall<'_>) -> Option<Texts> {
    let script = match read_script_file(rt, trial.script) {
        Ok(script) => script,
        Err(stop) => {
            tell(rt, stop, &known_of(trial, b"", b""));
            return None;
        }
    };
    match read_events(rt, trial, script.as_slice()) {
        Ok(ReadEvents { events, front }) => Some(Texts {
            script,
            events,
            front,
        }),
        Err(stop) => {
            let shown = shown_bytes(rt, trial.events, trial.explain);
            tell(
                rt,
                stop,
                &known_of(trial, script.as_slice(), shown.as_slice()),
            );
            None
        }
    }
}

fn read_events<'a, R: Files + AllocGlobal>(
    rt: &R,
    trial: &FaultsCall<'a>,
    script: &[u8],
) -> Result<ReadEvents, Stop<'a>> {
    if let Some(path) = trial.events {
        return inputs::read_events(rt, script, path);
    }
    match settled(rt.alloc()) {
        Ok(events) => Ok(ReadEvents {
            events,
            front: Vec::new(rt.alloc()),
        }),
        Err(_) => Err(Stop::Refused(CommandRefusal::NoMemory)),
    }
}

fn settled(alloc: Global) -> Result<Vec<u8>, AllocError> {
    let mut events = Vec::new(alloc);
    events.extend_from_slice(SETTLED)?;
    Ok(events)
}

fn path_in(alloc: Global, folder: &str, name: &str) -> Result<String, AllocError> {
    format!(in alloc; "{folder}/{name}")
}

/// Whether each list can be written in the folder, as far as that can be seen before. It needn't be there yet. Where one can't, that is told.
fn is_fit<R: Files + Eprint + AllocGlobal>(rt: &R, folder: &str) -> bool {
    match fs::metadata(rt, folder) {
        Ok(found) if found.is_dir() => are_free(rt, folder),
        Ok(_) => {
            let message = "it is there and is no folder, and a folder is wanted";
            let tried = Err(Error::new(ErrorKind::AlreadyExists, message));
            went_well(rt, folder, tried)
        }
        Err(error) if error.kind() == ErrorKind::NotFound => {
            went_well(rt, folder, try_folder(rt, folder))
        }
        Err(error) => went_well(rt, folder, Err(error)),
    }
}

/// Whether what was tried of a path, to which something is to be written, went well. Where it did not, that is told.
fn went_well<R: Eprint + AllocGlobal>(rt: &R, path: &str, tried: io::Result<()>) -> bool {
    match tried {
        Ok(()) => true,
        Err(error) => {
            stopped(rt, Stop::writing(path, error));
            let _ = eprintln!(rt; "nothing was run or written");
            false
        }
    }
}

/// Whether each list can be written in a folder that is there, and none is there already.
fn are_free<R: Files + Eprint + AllocGlobal>(rt: &R, folder: &str) -> bool {
    for kind in ENDS {
        let Ok(path) = path_in(rt.alloc(), folder, file_name(kind)) else {
            no_memory(rt);
            return false;
        };
        if !is_free(rt, path.as_str()) {
            return false;
        }
    }
    true
}

/// Whether a list can be written to a file that isn't there yet.
fn is_free<R: Files + Eprint + AllocGlobal>(rt: &R, path: &str) -> bool {
    match fs::exists(rt, path) {
        Ok(false) => went_well(rt, path, try_output(rt, path)),
        Ok(true) => {
            fault(rt, path, "is there already, and isn't overwritten");
            false
        }
        Err(error) => went_well(rt, path, Err(error)),
    }
}

/// Fails where a folder that isn't there couldn't be made, as far as that can be seen before: so of an empty name. It leaves nothing behind.
fn try_folder<R: Files + AllocGlobal>(rt: &R, folder: &str) -> io::Result<()> {
    if fs::symlink_metadata(rt, folder).is_ok() {
        let message = "it is a link to what is not there, and a folder is wanted";
        return Err(Error::new(ErrorKind::NotFound, message));
    }
    try_output(rt, first_missing(rt, folder))
}

/// The topmost folder that would be made for a path that isn't there.
fn first_missing<'a, R: Files>(rt: &R, path: &'a str) -> &'a str {
    let mut missing = path;
    for _name in 0..path.len() {
        let Some((above, _)) = missing.rsplit_once('/') else {
            return missing;
        };
        if !is_missing(rt, above) {
            return missing;
        }
        missing = above;
    }
    missing
}

/// Whether nothing has that name, which may be empty in front of the root's.
fn is_missing<R: Files>(rt: &R, path: &str) -> bool {
    !path.is_empty() && fs::symlink_metadata(rt, path).is_err()
}

/// Writes the first list for each end that there is into the folder, which is made where it isn't there, and says with which status the program ends.
fn write_lists<R: Files + Eprint + AllocGlobal>(
    rt: &R,
    trial: &FaultsCall<'_>,
    tried: &TriedFaults,
) -> ExitCode {
    let Some(folder) = trial.out else {
        return ExitCode::from(tried.status);
    };
    for kind in ENDS {
        let Ok(path) = path_in(rt.alloc(), folder, file_name(kind)) else {
            return no_memory(rt);
        };
        if let Err(error) = write_list(rt, folder, path.as_str(), kind, tried) {
            return stopped(rt, Stop::writing(path.as_str(), error));
        }
    }
    ExitCode::from(tried.status)
}

/// Writes the first list that ended so to a file in the folder, whole or not at all, if there is one.
fn write_list<R: Files + AllocGlobal>(
    rt: &R,
    folder: &str,
    path: &str,
    kind: EndKind,
    tried: &TriedFaults,
) -> io::Result<()> {
    let Some(first) = first_of(kind, tried.tried.as_slice()) else {
        return Ok(());
    };
    let text = list_file(rt.alloc(), tried.events.as_slice(), &first)?;
    fs::create_dir_all(rt, folder)?;
    write_whole(rt, path, text.as_bytes())
}
