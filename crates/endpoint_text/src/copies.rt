// The primary copies at a node.

ghost use Rattle.std.specs.Prelude.{◌≡◌, ◌∷◌, ◌++◌, [], IfOk, OnOk, codes, not, string_bytes};
ghost use Rattle.std.specs.List.{filter};
ghost use Rattle.meaning.specs.Births.{same_id};
ghost use Rattle.task_spec.specs.Births.{birth_of};
ghost use Rattle.event_log.specs.Words.{births};
ghost use Rattle.log_words.specs.Index.{IsIndexOf};
ghost use Rattle.main_text.specs.Links.{node_text};
ghost use Rattle.endpoint_text.specs.Lists.{ids_text};
ghost use Rattle.endpoint_text.specs.Nodes.{born_there, copies_after, copies_from, ended_there, is_large_result, is_put, large_results, lost_note};
ghost use Rattle.endpoint_text.specs.Nodes.{lost_text, seen_of, with_all, with_if, with_one, without, without_if};

use crate::lists::{is_one_of, write_ids};
use crate::sites::{Site, is_on};
use held::{SharedContent, SmallList};
use ids::{AttemptId, NodeId, ObjectId};
use log_entries::{Entry, Event};
use log_words::{BirthIndex, Contents, is_refusal_at};
use main_text::write_node;
use std::alloc::{AllocError, Global};
use task_spec::Birth;
use why_text::objects_of;

fn add_other(kept: &mut Vec<ObjectId>, object: ObjectId, item: ObjectId) -> Result<(), AllocError>
    ensures { OnOk result (kept.new.items ≡ kept.old.items ++ filter (λ p. not (same_id p object)) (item ∷ [])) }
{
    if item.is(object) {
        return Ok(());
    }
    Ok(kept.push(item)?)
}

/// The others of the objects.
fn without(
    alloc: Global,
    objects: &[ObjectId],
    object: ObjectId,
) -> Result<Vec<ObjectId>, AllocError>
    ensures { IfOk result (λ kept. kept.items ≡ without objects.now object) }
{
    let mut kept = Vec::new(alloc);
    for item in objects {
        add_other(&mut kept, object, *item)?;
    }
    Ok(kept)
}

fn without_if(
    alloc: Global,
    there: bool,
    objects: Vec<ObjectId>,
    object: ObjectId,
) -> Result<Vec<ObjectId>, AllocError>
    ensures { IfOk result (λ kept. kept.items ≡ without_if there objects.items object) }
{
    if there {
        return without(alloc, &objects, object);
    }
    Ok(objects)
}

/// The objects with that one behind them, once.
fn with_one(
    alloc: Global,
    objects: &[ObjectId],
    object: ObjectId,
) -> Result<Vec<ObjectId>, AllocError>
    ensures { IfOk result (λ all. all.items ≡ with_one objects.now object) }
{
    let mut all = without(alloc, objects, object)?;
    all.push(object)?;
    Ok(all)
}

fn with_if(
    alloc: Global,
    there: bool,
    objects: Vec<ObjectId>,
    object: ObjectId,
) -> Result<Vec<ObjectId>, AllocError>
    ensures { IfOk result (λ all. all.items ≡ with_if there objects.items object) }
{
    if there {
        return with_one(alloc, &objects, object);
    }
    Ok(objects)
}

fn is_put(birth: &Birth) -> bool
    ensures { result ≡ is_put (birth_of birth.now) }
{
    match birth {
        Birth::Put(_) => true,
        Birth::Task { .. } => false,
    }
}

fn born_there(site: &Site, object: ObjectId, birth: &Birth) -> bool
    ensures { result ≡ born_there (seen_of site.now) object (birth_of birth.now) }
{
    is_put(birth) && is_on(&site.nodes, site.node, object.owner.0)
}

/// The objects with those behind them, each once.
fn with_all(
    alloc: Global,
    objects: Vec<ObjectId>,
    others: &[ObjectId],
) -> Result<Vec<ObjectId>, AllocError>
    ensures { IfOk result (λ all. all.items ≡ with_all objects.items others.now) }
{
    let mut all = objects;
    for object in others {
        all = with_one(alloc, &all, *object)?;
    }
    Ok(all)
}

/// Whether the content of the object is large, of those with which the attempt ended.
#[tactic(auto, unfolding(crate::specs::Nodes::is_large_result))]
fn is_large_result(attempt: AttemptId, results: &SmallList<SharedContent>, object: ObjectId) -> bool
    ensures { result ≡ is_large_result attempt results.now object }
{
    let place = object.serial.saturating_sub(attempt.object.serial) as usize;
    let Some(content) = results.as_slice().get(place) else {
        return false;
    };
    !content.is_small()
}

fn add_large(
    large: &mut Vec<ObjectId>,
    attempt: AttemptId,
    results: &SmallList<SharedContent>,
    object: ObjectId,
) -> Result<(), AllocError>
    ensures { OnOk result (large.new.items ≡ large.old.items ++ filter (is_large_result attempt results.now) (object ∷ [])) }
{
    if is_large_result(attempt, results, object) {
        return Ok(large.push(object)?);
    }
    Ok(())
}

fn large_among(
    alloc: Global,
    attempt: AttemptId,
    results: &SmallList<SharedContent>,
    objects: &[ObjectId],
) -> Result<Vec<ObjectId>, AllocError>
    ensures { IfOk result (λ large. large.items ≡ filter (is_large_result attempt results.now) objects.now) }
{
    let mut large = Vec::new(alloc);
    for object in objects {
        add_large(&mut large, attempt, results, *object)?;
    }
    Ok(large)
}

/// Those of the attempt's objects whose contents are large, by the log of which that is the index.
fn large_results(
    alloc: Global,
    index: &BirthIndex,
    log: &[Entry],
    attempt: AttemptId,
    results: &SmallList<SharedContent>,
) -> Result<Vec<ObjectId>, AllocError>
    ensures { IsIndexOf index.now log.now → IfOk result
        (λ large. large.items ≡ large_results (births log.now) attempt results.now) }
{
    let objects = objects_of(alloc, index, log, attempt)?;
    large_among(alloc, attempt, results, &objects)
}

fn ended_there(
    alloc: Global,
    index: &BirthIndex,
    log: &[Entry],
    site: &Site,
    attempt: AttemptId,
    results: &SmallList<SharedContent>,
) -> Result<Vec<ObjectId>, AllocError>
    ensures { IsIndexOf index.now log.now → IfOk result
        (λ there. there.items ≡ ended_there (births log.now) (seen_of site.now) attempt results.now) }
{
    if is_one_of(&site.attempts, attempt) {
        return large_results(alloc, index, log, attempt, results);
    }
    Ok(Vec::new(alloc))
}

fn with_ended(
    alloc: Global,
    index: &BirthIndex,
    log: &[Entry],
    site: &Site,
    objects: Vec<ObjectId>,
    attempt: AttemptId,
    results: &SmallList<SharedContent>,
) -> Result<Vec<ObjectId>, AllocError>
    ensures { IsIndexOf index.now log.now → IfOk result
        (λ all. all.items ≡ with_all objects.items (ended_there (births log.now) (seen_of site.now) attempt results.now)) }
{
    let there = ended_there(alloc, index, log, site, attempt, results)?;
    with_all(alloc, objects, &there)
}

/// The objects whose primary copy is at the node behind the entry, of those before it; the index is that of the whole log.
fn copies_after(
    alloc: Global,
    index: &BirthIndex,
    log: &[Entry],
    site: &Site,
    objects: Vec<ObjectId>,
    entry: &Entry,
    is_refused: bool,
) -> Result<Vec<ObjectId>, AllocError>
    ensures { IsIndexOf index.now log.now → IfOk result
        (λ all. all.items ≡ copies_after (births log.now) (seen_of site.now) objects.items entry.now is_refused) }
{
    match entry {
        Entry::Born { object, birth, .. } => {
            let there = born_there(site, *object, &birth.inner);
            with_if(alloc, there, objects, *object)
        }
        Entry::Ended { attempt, contents } => {
            with_ended(alloc, index, log, site, objects, *attempt, contents)
        }
        Entry::Released(object) => without(alloc, &objects, *object),
        Entry::In {
            event: Event::Lose { node, object },
            ..
        } => {
            let there = node.is(site.node) && !is_refused;
            without_if(alloc, there, objects, *object)
        }
        _ => Ok(objects),
    }
}

/// The objects whose primary copy is at the node behind these entries.
fn copies_at(
    alloc: Global,
    index: &BirthIndex,
    log: &[Entry],
    site: &Site,
    before: &[Entry],
) -> Result<Vec<ObjectId>, AllocError>
    ensures { IsIndexOf index.now log.now → IfOk result
        (λ all. all.items ≡ copies_from (births log.now) (seen_of site.now) [] before.now) }
{
    let mut objects = Vec::new(alloc);
    for (place, entry) in before.iter().enumerate() {
        let is_refused = is_refusal_at(before, place + 1);
        objects = copies_after(alloc, index, log, site, objects, entry, is_refused)?;
    }
    Ok(objects)
}

fn write_lost_some(
    text: &mut String,
    contents: Contents,
    node: NodeId,
    objects: &[ObjectId],
) -> Result<(), AllocError>
    ensures { OnOk result (string_bytes text.new ≡ string_bytes text.old
        ++ (node_text node ++ (codes " lost the primary copies of " ++ (ids_text contents objects.now ++ codes ".\n")))) }
{
    write_node(text, node)?;
    text.push_str(" lost the primary copies of ")?;
    write_ids(text, contents, objects)?;
    text.push_str(".\n")?;
    Ok(())
}

fn write_lost_note(
    text: &mut String,
    contents: Contents,
    node: NodeId,
    objects: &[ObjectId],
) -> Result<(), AllocError>
    ensures { OnOk result (string_bytes text.new ≡ string_bytes text.old ++ lost_note contents node objects.now) }
{
    let [_, ..] = objects else {
        return Ok(());
    };
    write_lost_some(text, contents, node, objects)
}

/// Writes which primary copies are lost where the node dies behind these entries.
#[tactic(auto, unfolding(crate::specs::Nodes::lost_text))]
pub fn write_lost(
    alloc: Global,
    text: &mut String,
    contents: Contents,
    index: &BirthIndex,
    log: &[Entry],
    site: &Site,
    before: &[Entry],
) -> Result<(), AllocError>
    ensures { IsIndexOf index.now log.now → OnOk result
        (string_bytes text.new ≡ string_bytes text.old ++ lost_text contents (births log.now) (seen_of site.now) before.now) }
{
    let objects = copies_at(alloc, index, log, site, before)?;
    write_lost_note(text, contents, site.node, &objects)
}
