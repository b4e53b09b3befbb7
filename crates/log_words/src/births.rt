// What each object of a log was born as.

ghost use Rattle.std.specs.Prelude.{◌≡◌, IfOk, OnOk, Some, if◌then◌else◌, option_copied, slice_get};
ghost use Rattle.std.specs.Option.{option_map};
ghost use Rattle.meaning.specs.Values.{Id};
ghost use Rattle.task_spec.specs.Births.{birth_of};
ghost use Rattle.meaning.specs.Values.{main_birth};
ghost use Rattle.meaning.specs.Births.{same_id, birth_at};
ghost use Rattle.report_text.specs.of_event_log.Entries.{main_object};
ghost use Rattle.report_text.specs.of_event_log.Words.{births};
ghost use Rattle.log_words.specs.Index.{birth_in, found, is_born_in, AreIndexed, IsIndexOf};

use ids::ObjectId;
use indexmap::IndexMap;
use log_entries::Entry;
use small_list::SmallList;
use std::alloc::{AllocError, Global};
use std::sync::Arc;
use task_spec::Birth;

/// The births of a log by their first objects, main's with them.
#[derive(Drop)]
pub struct BirthIndex {
    main: Birth,
    places: IndexMap<ObjectId, usize>,
}

#[tactic(auto, unfolding(meaning::specs::Births::same_id))]
fn add(
    places: &mut IndexMap<ObjectId, usize>,
    object: ObjectId,
    place: usize,
) -> Result<(), AllocError>
    ensures { OnOk result ((o : Id) →
        found places.new o ≡ (if same_id object o then Some place else found places.old o)) }
{
    places.insert(object, place)?;
    Ok(())
}

/// Notes the place of the entry, if it is a birth.
fn note(
    places: &mut IndexMap<ObjectId, usize>,
    entry: &Entry,
    place: usize,
) -> Result<(), AllocError>
    ensures { OnOk result ((o : Id) →
        found places.new o ≡ (if is_born_in o entry.now then Some place else found places.old o)) }
{
    match entry {
        Entry::Born { object, .. } => add(places, *object, place),
        _ => Ok(()),
    }
}

/// The places of the births; of several births of an object, which no legal log has, the first counts.
fn places_of(alloc: Global, log: &[Entry]) -> Result<IndexMap<ObjectId, usize>, AllocError>
    ensures { IfOk result (λ places. AreIndexed places log.now 0) }
{
    let mut places = IndexMap::new(alloc);
    let mut place = log.len();
    while place > 0 {
        place -= 1;
        note(&mut places, &log[place], place)?;
    }
    Ok(places)
}

#[tactic(auto, unfolding(meaning::specs::Births::same_id))]
fn place_of(places: &IndexMap<ObjectId, usize>, object: ObjectId) -> Option<usize>
    ensures { result ≡ found places.now object }
{
    places.get(&object).copied()
}

fn birth_in(log: &[Entry], place: usize) -> Option<&Birth>
    ensures { option_map birth_of (option_copied result) ≡ birth_in (slice_get log.now place) }
{
    match log.get(place) {
        Some(Entry::Born { birth, .. }) => Some(&birth.inner),
        _ => None,
    }
}

/// Main's birth: a call with no arguments, at depth 0, that is run once.
fn main_birth(alloc: Global) -> Result<Birth, AllocError>
    ensures { IfOk result (λ b. birth_of b ≡ main_birth) }
{
    let function = Arc::new(alloc, String::from_str(alloc, "main")?)?;
    Ok(Birth::Task {
        function,
        arguments: SmallList::new(alloc),
        depth: 0,
        retries: 0,
        others: 0,
    })
}

/// Whether the object is main's own.
#[tactic(auto, unfolding(meaning::specs::Births::same_id))]
pub fn is_main(object: ObjectId) -> bool
    ensures { result ≡ same_id main_object object }
{
    object.owner.0 == 1 && object.serial == 0
}

impl BirthIndex {
    /// Where each birth stands in the log, by its first object, so that one is found without going over the log.
    pub fn of(alloc: Global, log: &[Entry]) -> Result<BirthIndex, AllocError>
        ensures { IfOk result (λ index. IsIndexOf index log.now) }
    {
        let main = main_birth(alloc)?;
        let places = places_of(alloc, log)?;
        Ok(BirthIndex { main, places })
    }

    /// What was born with this first object, by the log of which this is the index. Takes no memory.
    pub fn birth<'a>(&'a self, log: &'a [Entry], object: ObjectId) -> Option<&'a Birth>
        ensures { IsIndexOf self.now log.now →
            option_map birth_of (option_copied result) ≡ birth_at (births log.now) object }
    {
        if is_main(object) {
            return Some(&self.main);
        }
        match place_of(&self.places, object) {
            Some(place) => birth_in(log, place),
            None => None,
        }
    }
}
