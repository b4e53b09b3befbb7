// What a log has of workers, nodes and objects so far.

ghost use Rattle.std.specs.Prelude.{◌≡◌, ◌++◌, IfOk, OnErr, OnOk};
ghost use Rattle.fault_lists.specs.Lists.{first_seen, one_more, with_entry, with_event};

use ids::{ObjectId, WorkerId};
use log_entries::{Entry, Event};
use log_words::add_objects;
use sequence::Seq;
use std::alloc::{AllocError, Global};

/// The workers that were opened so far, the objects that were born, in the order in which they came, and how many nodes there are, the dead too.
#[derive(Drop)]
pub struct Seen {
    /// The workers that were opened, in order, dead ones too.
    pub workers: Seq<WorkerId>,
    /// The objects that were born, in order, released ones too.
    pub objects: Seq<ObjectId>,
    /// How many nodes there are, dead ones too: they are numbered from 1 to this.
    pub nodes: u32,
}

/// One number more, up to the greatest that a node can have.
fn one_more(nodes: u32) -> u32
    ensures { result ≡ one_more nodes }
{
    if nodes < u32::MAX {
        return nodes + 1;
    }
    nodes
}

impl Seen {
    /// Nothing but the nodes that there are at first.
    pub fn new(alloc: Global, nodes: u32) -> Seen
        ensures { result ≡ first_seen nodes }
    {
        Seen {
            workers: Seq::new(alloc),
            objects: Seq::new(alloc),
            nodes,
        }
    }

    /// Counts the node of a join that was taken; no other event adds anything here.
    pub fn note_event(&mut self, event: Event, refused: bool)
        ensures { self.new ≡ with_event event refused self.old }
    {
        if refused {
            return;
        }
        if let Event::Join = event {
            self.nodes = one_more(self.nodes);
        }
    }

    /// Notes what came of an event. An error is want of memory, and then nothing is left but how many nodes there are.
    pub fn note(&mut self, entry: &Entry) -> Result<(), AllocError>
        ensures done { OnOk result (self.new ≡ with_entry entry.now self.old) }
        ensures err { OnErr result (self.new ≡ first_seen self.old.nodes) }
    {
        let came = match entry {
            Entry::Opened { worker, .. } => self.workers.push(*worker),
            Entry::Born { object, birth, .. } => {
                add_objects(&mut self.objects.items, *object, &birth.inner)
            }
            _ => Ok(()),
        };
        if came.is_err() {
            self.workers.items.clear();
            self.objects.items.clear();
        }
        came
    }
}
