// What is kept of the lines of an event file.

ghost use Rattle.std.specs.Prelude.{◌≡◌, ℕ, Bool, List, [], ◌∷◌, ◌++◌, OnErr, OnOk};
ghost use Rattle.event_reading.specs.Kept.{IsKeptOf};

use event_files::MOST_EVENTS;
use sequence::Seq;
use std::alloc::{AllocError, Global};

/// How many bytes the settle lines of a file may have in all, their line feeds not counted; a file with more is refused 41.
pub const MOST_SETTLED: usize = 1_048_576;

/// The lines of an event file that say something, as far as a replay may go: behind the first 100,001 events none is kept.
#[derive(Drop)]
pub struct Kept<T> {
    /// What the lines say, in order.
    pub says: Seq<T>,
    /// The numbers of the lines in the file, counted from 1.
    pub numbers: Seq<usize>,
    /// Whether each line that says something is kept.
    pub is_whole: bool,
    /// How many of those that are kept are events.
    pub events: usize,
}

/// Adds what a line says, and its number. On an error both lists are as they were.
fn add_line<T: Drop>(
    says: &mut Seq<T>,
    numbers: &mut Seq<usize>,
    said: T,
    number: usize,
) -> Result<(), AllocError>
    ensures says { OnOk result (says.new ≡ says.old ++ said ∷ []) }
    ensures numbers { OnOk result (numbers.new ≡ numbers.old ++ number ∷ []) }
    ensures err { OnErr result ((says.new ≡ says.old) × (numbers.new ≡ numbers.old)) }
{
    numbers.items.reserve(1)?;
    says.push(said)?;
    numbers.items.push_reserved(number);
    Ok(())
}

impl<T: Drop> Kept<T> {
    /// Nothing yet.
    pub fn new(alloc: Global) -> Kept<T>
        ensures { (counts : T → Bool) → IsKeptOf counts [] [] result }
    {
        Kept {
            says: Seq::new(alloc),
            numbers: Seq::new(alloc),
            is_whole: true,
            events: 0,
        }
    }

    /// Keeps what the line of that number says, which is an event or none, unless there are events enough. An error is want of memory, and leaves all as
    /// it was.
    pub fn keep(&mut self, said: T, number: usize, is_event: bool) -> Result<(), AllocError>
        ensures done { OnOk result ((counts : T → Bool) (all : List T) (numbers : List ℕ) → counts said ≡ is_event → IsKeptOf counts all numbers self.old →
            IsKeptOf counts (all ++ said ∷ []) (numbers ++ number ∷ []) self.new) }
        ensures err { OnErr result (self.new ≡ self.old) }
    {
        if self.events > MOST_EVENTS {
            self.is_whole = false;
            return Ok(());
        }
        add_line(&mut self.says, &mut self.numbers, said, number)?;
        if is_event {
            self.events += 1;
        }
        Ok(())
    }
}
