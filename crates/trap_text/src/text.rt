// In which place of the script a trap comes about.

ghost use Rattle.std.specs.Prelude.{◌≡◌, ◌++◌, IfOk, OnOk, Some, string_bytes};
ghost use Rattle.script_check.specs.Trees.{script_of};
ghost use Rattle.trap_places.specs.Text.{spot_text};
ghost use Rattle.trap_sources.specs.Sources.{source_of};
ghost use Rattle.trap_text.specs.Text.{IsPlaceTold, IsTrapTold, lead, object_of};

use evaluation::{Compiled, find_trap};
use ids::{AttemptId, ObjectId, WorkerId};
use log_entries::Entry;
use log_words::BirthIndex;
use main_text::write_own;
use script_tokens::Span;
use spots::Spot;
use std::alloc::{AllocError, Global};
use trap_places::spot_text;
use trap_sources::{TrapSource, trap_source};

/// Of whose trap it is told.
#[derive(Clone, Copy, PartialEq, Eq, Debug)]
pub enum TrapAsked {
    /// Main's, below what is told of main, which ends with the attempt whose own code trapped.
    OfMain,
    /// That of an attempt of the object, below what is told of the object.
    Of(ObjectId),
}

fn object_of(asked: &TrapAsked) -> ObjectId
    ensures { result ≡ object_of asked.now }
{
    match asked {
        TrapAsked::OfMain => ObjectId {
            owner: WorkerId(1),
            serial: 0,
        },
        TrapAsked::Of(object) => *object,
    }
}

/// Writes whose own code trapped, where that doesn't stand above.
fn write_lead(
    alloc: Global,
    text: &mut String,
    asked: TrapAsked,
    log: &[Entry],
    attempt: AttemptId,
) -> Result<(), AllocError>
    ensures { OnOk result (string_bytes text.new ≡ string_bytes text.old ++ lead asked log.now attempt) }
{
    match asked {
        TrapAsked::OfMain => Ok(()),
        TrapAsked::Of(_) => {
            let index = BirthIndex::of(alloc, log)?;
            text.push_str("\n")?;
            write_own(text, &index, log, attempt)
        }
    }
}

/// What is told of an attempt that trapped at that spot.
fn place_text(
    alloc: Global,
    text: &[u8],
    places: &[Span],
    log: &[Entry],
    asked: TrapAsked,
    attempt: AttemptId,
    spot: &Spot,
) -> Result<String, AllocError>
    ensures { IfOk result (λ told. string_bytes told ≡ lead asked log.now attempt ++ spot_text text.now places.now spot.now) }
{
    let mut told = String::new(alloc);
    write_lead(alloc, &mut told, asked, log, attempt)?;
    let place = spot_text(alloc, text, places, spot)?;
    told.push_str(place.as_str())?;
    Ok(told)
}

/// What is told of the attempt, which is run once more.
fn source_text(
    alloc: Global,
    script: &Compiled,
    text: &[u8],
    places: &[Span],
    log: &[Entry],
    asked: TrapAsked,
    source: &TrapSource,
) -> Result<String, AllocError>
    ensures { IfOk result (λ told. IsPlaceTold (script_of script.now) text.now places.now log.now asked (Some (source_of source.now)) (string_bytes told)) }
{
    let found = find_trap(alloc, script, &source.spec, source.base, &source.answers)?;
    let Some(spot) = found else {
        return Ok(String::new(alloc));
    };
    place_text(alloc, text, places, log, asked, source.attempt, &spot)
}

/// In which place of the script the trap comes about with which main ended, or an attempt of an object: the attempt whose own code trapped is run once
/// more on the answers that it was handed, and what it was about to do there is told with line and column, the script's text, and what it worked on;
/// then the calls that waited. `text` is the script's text, and `places` are where its instructions were made of. Nothing is told where there was no
/// trap, and where the attempt began nothing.
///
/// It is made of any log. An error is want of memory.
pub fn trap_text(
    alloc: Global,
    script: &Compiled,
    text: &[u8],
    places: &[Span],
    log: &[Entry],
    asked: TrapAsked,
) -> Result<String, AllocError>
    ensures { IfOk result (λ told. IsTrapTold (script_of script.now) text.now places.now log.now asked (string_bytes told)) }
{
    let object = object_of(&asked);
    let found = trap_source(alloc, log, object)?;
    match &found {
        None => Ok(String::new(alloc)),
        Some(source) => source_text(alloc, script, text, places, log, asked, source),
    }
}
