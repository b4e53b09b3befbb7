// The events of a history with one fault more.

ghost use Rattle.std.specs.Prelude.{◌≡◌, ◌++◌, IfOk, OnOk, take, drop};
ghost use Rattle.faulted_history.specs.History.{event_list, fault_events};

use log_entries::Event;
use sequence::Seq;
use std::alloc::{AllocError, Global};

/// A history with one fault more.
#[derive(Clone, Copy, PartialEq, Eq, Debug)]
pub struct FaultList {
    /// How many events of the history stand before the fault.
    pub place: usize,
    /// The death, the loss or the evict that is put in.
    pub fault: Event,
    /// What main's worker is told directly behind the fault, if it is told.
    pub notice: Option<Event>,
}

/// The first of the events, so many.
fn front(events: &[Event], place: usize) -> &[Event]
    ensures { result.now ≡ take place events.now }
{
    if place >= events.len() {
        return events;
    }
    &events[..place]
}

/// The events behind the first, of which there are so many.
fn behind(events: &[Event], place: usize) -> &[Event]
    ensures { result.now ≡ drop place events.now }
{
    if place >= events.len() {
        return &events[events.len()..];
    }
    &events[place..]
}

fn add_events(all: &mut Seq<Event>, events: &[Event]) -> Result<(), AllocError>
    ensures { OnOk result (all.new ≡ all.old ++ events.now) }
{
    for event in events {
        all.push(*event)?;
    }
    Ok(())
}

fn add_fault(all: &mut Seq<Event>, list: &FaultList) -> Result<(), AllocError>
    ensures { OnOk result (all.new ≡ all.old ++ fault_events list.now) }
{
    all.push(list.fault)?;
    if let Some(notice) = list.notice {
        all.push(notice)?;
    }
    Ok(())
}

/// The events of the history, with the fault in its place.
pub fn event_list(
    alloc: Global,
    events: &[Event],
    list: &FaultList,
) -> Result<Seq<Event>, AllocError>
    ensures { IfOk result (λ all. all ≡ event_list events.now list.now) }
{
    let mut all = Seq::new(alloc);
    add_events(&mut all, front(events, list.place))?;
    add_fault(&mut all, list)?;
    add_events(&mut all, behind(events, list.place))?;
    Ok(all)
}
