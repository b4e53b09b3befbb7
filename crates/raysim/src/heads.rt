// Of which run a recorded history is.

use event_files::MOST_EVENTS;
use raysim_commands::Cluster;
use run_heads::{CLUSTER_WORD, SCRIPT_WORD, cluster_words, said_of, script_words};
use std::alloc::Global;
use std::io;
use std::io::Read;

/// How many of a file's first bytes are kept: more than the lines have that say of which run it is.
const MOST_KEPT: usize = 512;

/// A reader that keeps its first bytes.
#[derive(Drop)]
pub struct Fronted<T> {
    inner: T,
    front: Vec<u8>,
}

impl<T: Drop> Fronted<T> {
    /// The reader, of which nothing was read yet.
    pub fn new(alloc: Global, inner: T) -> Fronted<T> {
        Fronted {
            inner,
            front: Vec::new(alloc),
        }
    }

    /// The first bytes that were read.
    pub fn into_front(self) -> Vec<u8> {
        let Fronted { inner: _, front } = self;
        front
    }
}

impl<R: Read> Read for Fronted<R> {
    ghost remaining = { λ s. R.remaining s.inner };

    fn read(&mut self, buf: &mut [u8]) -> io::Result<usize> {
        let done = self.inner.read(buf);
        if let Ok(n) = done {
            let room = MOST_KEPT.saturating_sub(self.front.len());
            // Without memory for them less is kept, and then nothing is said of the run.
            let _ = self.front.extend_from_slice(&buf[..n.min(room)]);
        }
        done
    }
}

/// What a history says, unless it says nothing or has bytes that no such line has.
fn shown(said: &[u8]) -> &str {
    if said.is_empty() {
        return "something else";
    }
    for byte in said {
        if *byte < 32 || *byte > 126 {
            return "something else";
        }
    }
    str::from_utf8(said).unwrap_or("something else")
}

/// Tells where a history says that it was recorded on another cluster or of another script than it is replayed with. `front` is how its file begins.
pub fn tell_misfits<R: Eprint + AllocGlobal>(
    rt: &R,
    file: &str,
    front: &[u8],
    cluster: Cluster,
    script_file: &str,
    script: &[u8],
) {
    if let Some(said) = said_of(CLUSTER_WORD, front) {
        tell_other_cluster(rt, file, said, cluster);
    }
    if let Some(said) = said_of(SCRIPT_WORD, front) {
        tell_other_script(rt, file, said, script_file, script);
    }
}

fn tell_other_cluster<R: Eprint + AllocGlobal>(rt: &R, file: &str, said: &[u8], cluster: Cluster) {
    let Ok(words) = cluster_words(rt.alloc(), cluster.nodes(), cluster.slots()) else {
        return;
    };
    if words.as_bytes() != said {
        let _ = eprintln!(rt;
            "note: {file} was recorded with {}, not with {words}",
            shown(said)
        );
    }
}

fn tell_other_script<R: Eprint + AllocGlobal>(
    rt: &R,
    file: &str,
    said: &[u8],
    script_file: &str,
    script: &[u8],
) {
    let Ok(sum) = script_words(rt.alloc(), script) else {
        return;
    };
    if sum.as_bytes() != said {
        let _ = eprintln!(rt;
            "note: {file} was recorded of another script than {script_file}: its sum is {}, not {sum}",
            shown(said)
        );
    }
}

/// Tells where a history has more events than are replayed.
pub fn tell_length<R: Eprint>(rt: &R, file: &str, history: &[u8]) {
    let mut lines = 0usize;
    for byte in history {
        if *byte == b'\n' {
            lines = lines.saturating_add(1);
        }
    }
    let events = lines.saturating_sub(1);
    if events > MOST_EVENTS {
        let _ = eprintln!(rt;
            "note: {file} has {events} events, and no more than 100,000 are replayed: sim, log, why, state and faults stop there (refused 41)"
        );
    }
}
