// What an event file says, and in which lines.

ghost use Rattle.std.specs.Prelude.{◌≡◌, IfOk, IfErr, IfSome, drop, IsErrOf, OnOk};
ghost use Rattle.run_commands.specs.SimReports.{AreEvents, ExplainsEvents, ExplainsList, lines_in_file, number_of, said_numbers};

use event_files::{EventError, EventFile, line_numbers, parse_event_file};
use raysim_streams::{CommandRefusal, Source, read_at_most};
use sequence::Seq;
use std::alloc::{AllocError, Global};

/// What an event file says, and the numbers of the lines that say it.
#[derive(Drop)]
pub struct EventLines {
    /// The lines, by the file's format.
    pub says: EventFile,
    /// The numbers of those lines in the file, counted from 1.
    pub numbers: Seq<usize>,
}

/// The number in the file of a line that is counted without those that are passed over.
pub fn number_of(numbers: &Seq<usize>, line: usize) -> usize
    ensures { result ≡ number_of numbers.now line }
{
    if line == 0 || line > numbers.len() {
        return 0;
    }
    *numbers.get(line - 1)
}

/// The numbers in the file of such lines.
pub fn lines_in_file(
    alloc: Global,
    numbers: &Seq<usize>,
    lines: &Seq<usize>,
) -> Result<Seq<usize>, AllocError>
    ensures { IfOk result (λ all. all ≡ lines_in_file numbers.now lines.now) }
{
    let mut all = Seq::new(alloc);
    all.items.reserve(lines.len())?;
    for line in &lines.items {
        all.push(number_of(numbers, *line))?;
    }
    Ok(all)
}

fn without_first(numbers: &mut Seq<usize>)
    ensures { numbers.new ≡ drop 1 numbers.old }
{
    if numbers.items.is_empty() {
        return;
    }
    numbers.items.remove(0);
}

/// The numbers of a file's lines that say something.
fn said_numbers(alloc: Global, says: &EventFile, text: &[u8]) -> Result<Seq<usize>, AllocError>
    ensures { IfOk result (λ numbers. numbers ≡ said_numbers says.now text.now) }
{
    let mut numbers = line_numbers(alloc, text)?;
    match says {
        EventFile::Lines(_) => Ok(numbers),
        EventFile::Recorded(_) => {
            without_first(&mut numbers);
            Ok(numbers)
        }
    }
}

/// The lines of an event file's text.
pub fn event_lines(alloc: Global, text: &[u8]) -> Result<EventLines, CommandRefusal>
    ensures found { IfOk result (λ events. AreEvents text.now events.says events.numbers) }
    ensures refused { IfErr result (ExplainsList text.now) }
{
    match parse_event_file(alloc, text) {
        Ok(says) => match said_numbers(alloc, &says, text) {
            Ok(numbers) => Ok(EventLines { says, numbers }),
            Err(_) => Err(CommandRefusal::NoMemory),
        },
        Err(EventError::BadLine(line)) => Err(CommandRefusal::BadLine { line }),
        Err(EventError::NoMemory) => Err(CommandRefusal::NoMemory),
    }
}

/// The lines of an event file that is read.
pub fn read_events<E: Source>(alloc: Global, reader: &mut E) -> Result<EventLines, CommandRefusal>
    ensures read { IfOk result (λ events. IfSome (E.left reader.old) (λ bytes. AreEvents bytes events.says events.numbers)) }
    ensures refused { IfErr result (λ refusal. ExplainsEvents (E.left reader.old) (E.failures reader.old, E.failures reader.new) refusal) }
    ensures memory { IsErrOf result CommandRefusal.NoMemory → E.failures reader.new ≡ E.failures reader.old }
    ensures unfailed { OnOk result (E.failures reader.new ≡ E.failures reader.old) }
{
    let text = match read_at_most(alloc, reader, usize::MAX) {
        Ok(text) => text,
        Err(refusal) => return Err(refusal),
    };
    match event_lines(alloc, text.as_slice()) {
        Ok(events) => Ok(events),
        Err(refusal) => Err(refusal),
    }
}
