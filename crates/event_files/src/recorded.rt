// Histories, which are event files of format 2: their lines, read and written.

ghost use Rattle.std.specs.Prelude.{◌≡◌, ◌++◌, IfOk, IfErr, OnOk, string_bytes};
ghost use Rattle.event_files.specs.Files.{IsFile};
ghost use Rattle.event_files.specs.Recorded.{IsRecorded, IsRecordedRefusal, claim_in, given_text, recorded_file, recorded_in, recorded_line};
ghost use Rattle.event_files.specs.Recorded.{recorded_text, said_in, seat_in};

use crate::error::EventError;
use crate::event::read_event;
use crate::numbers::{read_number, read_worker};
use crate::parts::{behind, parted};
use crate::passing::is_passed;
use log_entries::Event;
use sequence::Seq;
use std::alloc::{AllocError, Global};

/// An event as a recorded history tells it.
#[derive(Clone, Copy, PartialEq, Eq, Debug)]
pub struct RecordedEvent {
    /// The seat from which it came, 0 to 8: 0 where no seats are used.
    pub seat: u8,
    /// The event, whether it was taken or refused.
    pub event: Event,
    /// Of a claim, the number of the job that it gave, 0 where it was refused; of another event none.
    pub given: Option<u64>,
}

fn read_seat(text: &[u8]) -> Option<u8>
    ensures { result ≡ seat_in text.now }
{
    let Some(number) = read_number(text) else {
        return None;
    };
    if number < 9 {
        return Some(number as u8);
    }
    None
}

/// The worker that claims, and the job.
fn read_claim(seat: u8, text: &[u8]) -> Option<RecordedEvent>
    ensures { result ≡ claim_in seat text.now }
{
    let Some((front, back)) = parted(text, b' ') else {
        return None;
    };
    let Some(worker) = read_worker(front) else {
        return None;
    };
    let Some(job) = read_number(back) else {
        return None;
    };
    Some(RecordedEvent {
        seat,
        event: Event::Claim(worker),
        given: Some(job),
    })
}

fn read_said(seat: u8, text: &[u8]) -> Option<RecordedEvent>
    ensures { result ≡ said_in seat text.now }
{
    if let Some(rest) = behind(b"claim ", text) {
        return read_claim(seat, rest);
    }
    let Some(event) = read_event(text) else {
        return None;
    };
    Some(RecordedEvent {
        seat,
        event,
        given: None,
    })
}

/// What a line of a file of format 2 says, without its line feed; no other text is one. Takes no memory.
#[tactic(auto, unfolding(crate::specs::Recorded::recorded_in))]
pub fn read_recorded(text: &[u8]) -> Option<RecordedEvent>
    ensures { result ≡ recorded_in text.now }
{
    let Some((front, back)) = parted(text, b' ') else {
        return None;
    };
    let Some(seat) = read_seat(front) else {
        return None;
    };
    read_said(seat, back)
}

/// Reads what stands behind the first line.
pub fn parse_recorded(alloc: Global, text: &[u8]) -> Result<Seq<RecordedEvent>, EventError>
    ensures read { IfOk result (λ events. IsFile IsRecorded recorded_text text.now events) }
    ensures refused { IfErr result (λ e. IsRecordedRefusal text.now e) }
{
    let mut events = Seq::new(alloc);
    let mut rest = text;
    let mut number = 0;
    while let Some((line, after)) = parted(rest, b'\n') {
        number += 1;
        if !is_passed(line) {
            let Some(RecordedEvent { seat, event, given }) = read_recorded(line) else {
                return Err(EventError::BadLine(number + 1));
            };
            events.push(RecordedEvent { seat, event, given })?;
        }
        rest = after;
    }
    if !rest.is_empty() {
        return Err(EventError::BadLine(number + 1 + 1));
    }
    Ok(events)
}

fn write_given(text: &mut String, given: Option<u64>) -> Result<(), AllocError>
    ensures { OnOk result (string_bytes text.new ≡ string_bytes text.old ++ given_text given) }
{
    match given {
        Some(job) => write!(text, " {job}"),
        None => Ok(()),
    }
}

fn write_recorded(text: &mut String, said: RecordedEvent) -> Result<(), AllocError>
    ensures { OnOk result (string_bytes text.new ≡ string_bytes text.old ++ recorded_line said) }
{
    write!(text, "{} {}", said.seat, said.event)?;
    write_given(text, said.given)?;
    text.push_str("\n")
}

/// Writes events as an event file of format 2: `raysim 2`, and then one line each (docs/event-files.md).
pub fn print_recorded(alloc: Global, events: &[RecordedEvent]) -> Result<String, AllocError>
    ensures { IfOk result (λ text. string_bytes text ≡ recorded_file events.now) }
{
    let mut text = String::new(alloc);
    text.push_str("raysim 2\n")?;
    for said in events {
        write_recorded(&mut text, *said)?;
    }
    Ok(text)
}
