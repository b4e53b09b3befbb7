// Which of an owner's objects a search for what can be released has to look at.

ghost use Rattle.std.specs.Prelude.{◌≡◌, ◌<◌, ◌≤◌, ◌⊎◌, ℕ, List, [], None, Some, false, length, slice_get, slice_set, true};
ghost use Rattle.meaning.specs.Births.{same_id};
ghost use Rattle.std.specs.List.{list_any};
ghost use Rattle.flags.specs.Blocks.{AreDown};
ghost use Rattle.protocol_data.specs.Unneeded.{AllStay, AreKept, AreNotKept, Goes, IsNotKept, IsSearched, has_holder, is_awaited, is_borne_by, is_kept, is_unneeded, stays};
ghost use Rattle.protocol_data.specs.Bearers.{is_same_bearer};
ghost use Rattle.protocol_data.specs.Searches.{IsLookedOver, IsSearchedBy, IsUnsure, PassesOver};
ghost use Rattle.protocol_data.specs.declared.tables.Object.{Object};
ghost use Rattle.indexmap.specs.IndexMap.{index_map_len, values};

use crate::tables::{Object, ObjectSource, Progress};
use flags::Flags;
use ids::{AttemptId, ObjectId};
use indexmap::IndexMap;
use log_entries::SmallList;
use std::alloc::Global;

/// Which of an owner's objects may have come to be releasable: those from `seen` on, which were never looked at, and those that are marked as changed
/// since they were. Any other one isn't released while the bearer goes on, which bore none before `own_from`.
#[derive(Drop)]
pub struct Search {
    /// The place from which on none was ever looked at.
    pub seen: usize,
    /// By place, whether the object was changed since it was looked at.
    pub changed: Flags,
    /// The attempt that went on when they were looked at, if one did: what it bore isn't released while it goes on.
    pub bearer: Option<AttemptId>,
    /// The place before which the bearer bore none.
    pub own_from: usize,
}

/// Whether the id is one of these.
fn has_id(ids: &SmallList<ObjectId>, id: ObjectId) -> bool
    ensures { result ≡ list_any (λ p. same_id p id) ids.now }
{
    ids.as_slice().iter().any(|o| o.is(id))
}

/// Whether anyone holds the object: one of the holders that were added was not removed.
fn has_holder(object: &Object) -> bool
    ensures { result ≡ has_holder object.now }
{
    object
        .added
        .as_slice()
        .iter()
        .any(|e| !has_id(&object.removed, *e))
}

/// Whether an attempt of the task that makes the object is asked for or under way.
fn is_awaited(source: &ObjectSource) -> bool
    ensures { result ≡ is_awaited source.now }
{
    match source {
        ObjectSource::WasPut | ObjectSource::Beside(_) => false,
        ObjectSource::ByTask(task) => match &task.progress {
            Progress::AtRest => false,
            Progress::AskedAt(..) => true,
            Progress::RunsOn(..) => true,
        },
    }
}

/// Whether nothing needs the object any more, but perhaps the attempt that bore it.
fn is_unneeded(object: &Object) -> bool
    ensures { result ≡ is_unneeded object.now }
{
    !object.is_released
        && (object.settled.is_some() || object.fault.is_some())
        && !is_awaited(&object.source)
        && !has_holder(object)
}

fn is_borne_by(bearer: &Option<AttemptId>, object: &Object) -> bool
    ensures { result ≡ is_borne_by bearer.now object.now }
{
    match bearer {
        None => false,
        Some(attempt) => attempt.is(object.bearer),
    }
}

/// Whether it isn't released while that attempt goes on.
fn stays(going_on: &Option<AttemptId>, object: &Object) -> bool
    ensures { result ≡ stays going_on.now object.now }
{
    !is_unneeded(object) || is_borne_by(going_on, object)
}

/// Whether it isn't released while the bearer goes on.
fn is_kept(bearer: &Option<AttemptId>, own: usize, place: usize, object: &Object) -> bool
    ensures { result ≡ is_kept bearer.now own place object.now }
{
    !is_unneeded(object) || (!(place < own) && is_borne_by(bearer, object))
}

/// The first place from the one on, and before the other, of an object that may be released; else the other.
#[inline(always)]
#[tactic(auto, using(crate::proofs::Searches::one_kept, crate::proofs::Searches::not_kept_there, crate::proofs::Searches::none_kept_behind))]
fn kept_until(
    rows: &IndexMap<u64, Object>,
    from: usize,
    to: usize,
    bearer: &Option<AttemptId>,
    own: usize,
) -> usize
    ensures kept { AreKept (values rows.now) from result bearer.now own }
    ensures end { (to ≤ result) ⊎ IsNotKept (values rows.now) result bearer.now own }
{
    for place in from..to {
        if place >= rows.len() {
            return place;
        }
        if !is_kept(bearer, own, place, &rows[place]) {
            return place;
        }
    }
    to
}

fn is_same_bearer(bearer: &Option<AttemptId>, other: &Option<AttemptId>) -> bool
    ensures { result ≡ is_same_bearer bearer.now other.now }
{
    match bearer {
        None => other.is_none(),
        Some(attempt) => match other {
            None => false,
            Some(another) => attempt.is(*another),
        },
    }
}

/// Marks the object at the place as changed, if it was looked at.
#[inline(always)]
pub fn mark(changed: &mut Flags, place: usize, seen: usize)
    requires { place < length changed.old }
    ensures marked { place < seen → changed.new ≡ slice_set changed.old place true }
    ensures unseen { seen ≤ place → changed.new ≡ changed.old }
{
    if place < seen {
        changed.set(place, true);
    }
}

/// The lesser of the two numbers.
pub fn least(one: usize, other: usize) -> usize
    ensures one { result ≤ one }
    ensures other { result ≤ other }
    ensures either { (result ≡ one) ⊎ (result ≡ other) }
{
    if one < other {
        return one;
    }
    other
}

/// The first place from that one on that is marked or isn't before `seen`.
fn first_unsure(from: usize, seen: usize, changed: &Flags) -> usize
    ensures on { from ≤ result }
    ensures sure { (result ≤ from) ⊎ (result ≤ seen) }
    ensures down { AreDown changed.now from result }
    ensures unsure { (seen ≤ result) ⊎ (slice_get changed.now result ≡ Some true) }
{
    if from >= seen {
        return from;
    }
    let next = changed.next(from);
    if next < seen && next < changed.len() {
        return next;
    }
    seen
}

/// Where nothing bears, all that was seen was borne before.
fn own_behind(bearer: &Option<AttemptId>, own: usize, seen: usize) -> usize
    ensures { (result ≡ own) ⊎ (bearer.now ≡ None) }
{
    match bearer {
        None => seen,
        Some(_) => own,
    }
}

/// There is no object yet.
pub fn nothing_seen(alloc: Global) -> Search
    ensures { IsSearchedBy [] result }
{
    Search {
        seen: 0,
        changed: Flags::new(alloc),
        bearer: None,
        own_from: 0,
    }
}

/// From now on the objects of that attempt are kept, and of no other: what was borne since the last one began is to be looked at, if it is another.
pub fn attend(search: &mut Search, going_on: Option<AttemptId>)
    ensures kept { (xs : List Object) → IsSearchedBy xs search.old → IsSearchedBy xs search.new }
    ensures bearer { (search.new ≡ search.old) ⊎ (search.new.bearer ≡ going_on) }
    ensures seen { (search.new.seen ≡ search.old.seen) ⊎ (search.new.seen ≡ search.old.own_from) }
    ensures changed { search.new.changed ≡ search.old.changed }
{
    if is_same_bearer(&search.bearer, &going_on) {
        return;
    }
    let seen = least(search.own_from, search.seen);
    search.seen = seen;
    search.own_from = seen;
    search.bearer = going_on;
}

/// The next place from that one on that has to be looked at, where the attempt goes on.
fn next_unsure(search: &Search, from: usize, going_on: &Option<AttemptId>) -> usize
    ensures on { from ≤ result }
    ensures stay { (xs : List Object) → IsSearchedBy xs search.now → AllStay xs from result going_on.now }
    ensures passes { PassesOver search.now going_on.now result }
{
    if is_same_bearer(&search.bearer, going_on) {
        return first_unsure(from, search.seen, &search.changed);
    }
    from
}

/// Whether it is known, with no look at the objects, that none is released while the attempt goes on, and that none need be looked at again.
pub fn is_looked_over(
    rows: &IndexMap<u64, Object>,
    search: &Search,
    going_on: &Option<AttemptId>,
) -> bool
    requires { IsSearchedBy (values rows.now) search.now }
    ensures { result ≡ true → AllStay (values rows.now) 0 (length (values rows.now)) going_on.now }
{
    next_unsure(search, 0, going_on) >= rows.len()
}

/// The first place from that one on of an object that may be released, where the attempt goes on; or one behind the last.
pub fn first_to_go(
    rows: &IndexMap<u64, Object>,
    search: &Search,
    from: usize,
    going_on: &Option<AttemptId>,
) -> usize
    requires { IsSearchedBy (values rows.now) search.now }
    ensures on { from ≤ result }
    ensures stay { AllStay (values rows.now) from result going_on.now }
    ensures goes { Goes (values rows.now) result going_on.now }
{
    let count = rows.len();
    let mut place = from;
    for turn in from..count {
        let _ = turn;
        let next = next_unsure(search, place, going_on);
        if next >= count {
            return next;
        }
        if !stays(going_on, &rows[next]) {
            return next;
        }
        place = next + 1;
    }
    place
}

/// Takes the mark from the object at the place. Its block of marks stays marked where it is the first of a search: of most it is the one.
fn take_mark(changed: &mut Flags, place: usize, is_first: bool)
    requires { place < length changed.old }
    ensures { changed.new ≡ slice_set changed.old place false }
{
    changed.set(place, false);
    if !is_first {
        changed.sum_up(place);
    }
}

/// Takes the marks from those of the changed objects that are kept.
#[inline(always)]
fn look_over(
    rows: &IndexMap<u64, Object>,
    changed: &mut Flags,
    bearer: &Option<AttemptId>,
    own: usize,
)
    requires { length changed.old ≡ index_map_len rows.now }
    ensures long { length changed.new ≡ length changed.old }
    ensures kept { (seen : ℕ) → IsSearched (values rows.now) seen changed.old bearer.now own → IsSearched (values rows.now) seen changed.new bearer.now own }
    ensures looked { AreNotKept (values rows.now) changed.new bearer.now own }
{
    let count = rows.len();
    let mut place = 0;
    for turn in 0..count {
        let next = changed.next(place);
        if next >= count {
            return;
        }
        if is_kept(bearer, own, next, &rows[next]) {
            take_mark(changed, next, turn == 0);
        }
        place = next + 1;
    }
}

/// What was changed and what was never looked at is looked at, so that no search need look at it again: what is left then are objects that may be
/// released, and what lies behind the first one of those that were never looked at.
pub fn settle(rows: &IndexMap<u64, Object>, search: &mut Search)
    requires { IsSearchedBy (values rows.now) search.old }
    ensures kept { IsSearchedBy (values rows.now) search.new }
    ensures bearer { search.new.bearer ≡ search.old.bearer }
    ensures looked { IsLookedOver (values rows.now) search.new }
{
    let bearer = search.bearer;
    look_over(rows, &mut search.changed, &bearer, search.own_from);
    let seen = kept_until(rows, search.seen, rows.len(), &bearer, search.own_from);
    let own_from = own_behind(&bearer, search.own_from, seen);
    search.seen = seen;
    search.own_from = own_from;
}
