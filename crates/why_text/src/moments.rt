// The event at which something happened.

ghost use Rattle.std.specs.Prelude.{◌≡◌, ◌+◌, ◌++◌, ◌<◌, ◌≤◌, ◌^◌, [], OnErr, OnOk, string_bytes};
ghost use Rattle.why_text.specs.Moments.{event_note, first_moment, line_note, moment_after, moment_of, when_event, when_text};

use log_entries::{Entry, Event};
use report::or_no_text;
use std::alloc::AllocError;

/// How many events came, the last of them, and the line of the event file from which it came, if there is one.
#[derive(Clone, Copy)]
pub struct Moment {
    /// How many events came, this one counted.
    pub number: usize,
    /// The last of them; none where none came.
    pub event: Option<Event>,
    /// The line of the event file from which it came, counted from 1, if there is one.
    pub line: Option<usize>,
}

impl Moment {
    /// Before the first event.
    pub fn first() -> Moment
        ensures { moment_of result ≡ first_moment }
    {
        Moment {
            number: 0,
            event: None,
            line: None,
        }
    }

    /// The moment with this entry, where `lines` are those of the events, in their order.
    pub fn after(self, lines: &[usize], entry: &Entry) -> Moment
        requires { self.number + 1 < 2 ^ 64 }
        ensures moment { moment_of result ≡ moment_after lines.now (moment_of self) entry.now }
        ensures counted { result.number ≤ self.number + 1 }
    {
        match entry {
            Entry::In { event, .. } => Moment {
                number: self.number + 1,
                event: Some(*event),
                line: lines.get(self.number).copied(),
            },
            _ => self,
        }
    }
}

#[tactic(auto, unfolding(crate::specs::Moments::line_note))]
fn write_line(text: &mut String, line: Option<usize>) -> Result<(), AllocError>
    ensures { OnOk result (string_bytes text.new ≡ string_bytes text.old ++ line_note line) }
{
    match line {
        None => Ok(()),
        Some(line) => write!(text, ", line {line}"),
    }
}

#[tactic(auto, unfolding(crate::specs::Moments::event_note))]
fn write_event_note(text: &mut String, number: usize, event: Event) -> Result<(), AllocError>
    ensures { OnOk result (string_bytes text.new ≡ string_bytes text.old ++ event_note number event) }
{
    write!(text, " in event {number} ({event}")
}

#[tactic(auto, unfolding(crate::specs::Moments::when_event))]
fn write_event(
    text: &mut String,
    number: usize,
    line: Option<usize>,
    event: Option<Event>,
) -> Result<(), AllocError>
    ensures { OnOk result (string_bytes text.new ≡ string_bytes text.old ++ when_event number line event) }
{
    let Some(event) = event else {
        return text.push_str(" at the start");
    };
    write_event_note(text, number, event)?;
    write_line(text, line)?;
    text.push_str(")")
}

/// Writes when something happened, such as ` in event 6 (kill 2, line 2)`. An error is want of memory, and then nothing is left of the text.
pub fn write_when(text: &mut String, moment: &Moment) -> Result<(), AllocError>
    ensures done { OnOk result (string_bytes text.new ≡ string_bytes text.old ++ when_text (moment_of moment.now)) }
    ensures err { OnErr result (string_bytes text.new ≡ []) }
{
    or_no_text(
        write_event(text, moment.number, moment.line, moment.event),
        text,
    )
}
