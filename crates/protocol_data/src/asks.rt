// The asks that a node answered, with an index that tells what was surely never asked.

ghost use Rattle.std.specs.Prelude.{◌≡◌, ◌++◌, ◌∷◌, [], ◌<◌, ℕ, List, IfOk, IfSome, IfNone, OnErr, OnOk, length, not, slice_get, slice_set, true, false};
ghost use Rattle.std.specs.List.{filter, find, list_any};
ghost use Rattle.std.specs.Option.{option_map};
ghost use Rattle.event_log.specs.Words.{same_attempt};
ghost use Rattle.protocol_data.specs.Noted.{AreDistinct, is_that_ask};
ghost use Rattle.protocol_data.specs.Marked.{AreMarked, is_that_row, there};

use crate::marks::{copy_marks, mark, mark_of, may_be_marked};
use crate::node::{AskKey, AskReply, Asked};
use ids::ObjectId;
use sequence::Seq;
use std::alloc::{AllocError, Global};
use std::marker::Model;

fn object_of(key: &AskKey) -> ObjectId
    ensures { result ≡ key.now.attempt.object }
{
    key.attempt.object
}

fn answered(key: &AskKey, reply: &AskReply) -> Option<Asked>
    ensures { result ≡ Some (record { key = key.now; reply = reply.now }) }
{
    Some(Asked {
        key: *key,
        reply: *reply,
    })
}

/// How many rows there is room for from the first on. A list that grows is copied, up to the size from which on the C library moves its pages instead,
/// of which it has none before they are written. This one is that large.
const ROWS: usize = 4096;

/// There is room for many rows, where none was put yet.
fn make_room(rows: &mut Seq<Option<Asked>>) -> Result<(), AllocError>
    ensures { rows.new ≡ rows.old }
{
    if !rows.is_empty() {
        return Ok(());
    }
    rows.items.reserve(ROWS)?;
    Ok(())
}

/// One more row: what was answered to the ask.
fn push_row(rows: &mut Seq<Option<Asked>>, key: &AskKey, reply: &AskReply) -> Result<(), AllocError>
    ensures ok { OnOk result (rows.new ≡ rows.old ++ Some (record { key = key.now; reply = reply.now }) ∷ []) }
    ensures err { OnErr result (rows.new ≡ rows.old) }
{
    make_room(rows)?;
    let row = answered(key, reply);
    rows.push(row)
}

/// Whether what was answered is the ask of that attempt with that number.
fn is_that_ask(key: &AskKey, asked: &Asked) -> bool
    ensures { result ≡ is_that_ask key.now asked.now }
{
    asked.key.attempt.is(key.attempt) && asked.key.hops == key.hops
}

fn is_that_row(key: &AskKey, row: &Option<Asked>) -> bool
    ensures { result ≡ is_that_row key.now row.now }
{
    match row {
        None => false,
        Some(asked) => is_that_ask(key, asked),
    }
}

/// The place of that ask, looked for among all rows.
fn place_of(rows: &Seq<Option<Asked>>, key: &AskKey) -> Option<usize>
    ensures found { IfSome result (λ p. (x : Asked) × (slice_get rows.now p ≡ Some (Some x)) × (is_that_ask key.now x ≡ true)) }
    ensures none { IfNone result (list_any (is_that_ask key.now) (there rows.now) ≡ false) }
{
    for place in 0..rows.len() {
        if is_that_row(key, rows.get(place)) {
            return Some(place);
        }
    }
    None
}

/// The place that the mark names, if that ask stands there.
fn marked_place(rows: &Seq<Option<Asked>>, mark: u32, key: &AskKey) -> Option<usize>
    ensures found { IfSome result (λ p. (x : Asked) × (slice_get rows.now p ≡ Some (Some x)) × (is_that_ask key.now x ≡ true)) }
{
    if mark == 0 {
        return None;
    }
    let place = mark as usize - 1;
    if place >= rows.len() {
        return None;
    }
    if is_that_row(key, rows.get(place)) {
        return Some(place);
    }
    None
}

/// The place of that ask. One that was surely never noted isn't looked for, and only one that isn't the latest of its object is looked for among all.
fn known_place(rows: &Seq<Option<Asked>>, marks: &Seq<Seq<u32>>, key: &AskKey) -> Option<usize>
    requires marked { AreMarked marks.now (there rows.now) }
    ensures found { IfSome result (λ p. (x : Asked) × (slice_get rows.now p ≡ Some (Some x)) × (is_that_ask key.now x ≡ true)) }
    ensures none { IfNone result (list_any (is_that_ask key.now) (there rows.now) ≡ false) }
{
    let object = object_of(key);
    let mark = mark_of(marks, object);
    if !may_be_marked(object, mark) {
        return None;
    }
    if let Some(place) = marked_place(rows, mark, key) {
        return Some(place);
    }
    place_of(rows, key)
}

fn reply_of(row: &Option<Asked>) -> Option<AskReply>
    ensures { result ≡ option_map (λ r. r.reply) row.now }
{
    match row {
        None => None,
        Some(asked) => Some(asked.reply),
    }
}

/// What was answered to the ask.
fn reply_in(rows: &Seq<Option<Asked>>, marks: &Seq<Seq<u32>>, key: &AskKey) -> Option<AskReply>
    requires distinct { AreDistinct (there rows.now) }
    requires marked { AreMarked marks.now (there rows.now) }
    ensures { result ≡ option_map (λ r. r.reply) (find (is_that_ask key.now) (there rows.now)) }
{
    let Some(place) = known_place(rows, marks, key) else {
        return None;
    };
    reply_of(rows.get(place))
}

/// The asks that were answered, each once, with the answers that stand. Contracts see the list, in order of answering.
///
/// An answer that is put anew stands at the end, and where it stood nothing does: so what it costs does not grow with how many there are. Beside the
/// rows stands of each object, by its owner and serial, a mark of where the latest row of it is: what has none is asked for anew.
#[derive(Drop, Debug)]
pub struct Asks {
    rows: Seq<Option<Asked>>,
    marks: Seq<Seq<u32>>,
}

impl Model for Asks {
    ghost use Rattle.std.specs.Prelude.{List};
    ghost use Rattle.std.specs.Coded.{codes};
    ghost use Rattle.ids.specs.Codes.{id_code};
    ghost use Rattle.ids.specs.Codes.{attempt_code};
    ghost use Rattle.protocol_data.specs.declared.node.Asked.{Asked};

    ghost Value = { List Asked };

    ghost coded = { Prim.hlevel (codes, id_code, attempt_code) };

    ghost use Rattle.protocol_data.specs.Noted.{AreDistinct};
    ghost use Rattle.protocol_data.specs.Marked.{AreMarked, there};

    ghost view = { λ a. there a.rows };

    ghost invariant = { λ a. AreDistinct (there a.rows) × AreMarked a.marks (there a.rows) };
}

impl Asks {
    /// No ask was answered.
    pub fn new(alloc: Global) -> Self
        ensures { result ≡ [] }
    {
        Asks {
            rows: Seq::new(alloc),
            marks: Seq::new(alloc),
        }
    }

    /// What was answered to the ask.
    pub fn reply_to(&self, key: &AskKey) -> Option<AskReply>
        ensures { result ≡ option_map (λ r. r.reply) (find (is_that_ask key.now) self.now) }
    {
        reply_in(&self.rows, &self.marks, key)
    }

    /// The answer to the ask stands from now on. An error is want of memory, and leaves the answers as they were.
    pub fn put(&mut self, key: &AskKey, reply: &AskReply) -> Result<(), AllocError>
        ensures ok { OnOk result (self.new ≡ filter (λ r. not (is_that_ask key.now r)) self.old ++ record { key = key.now; reply = reply.now } ∷ []) }
        ensures err { OnErr result (self.new ≡ self.old) }
    {
        let known = known_place(&self.rows, &self.marks, key);
        let object = object_of(key);
        let last = self.rows.len();
        mark(&mut self.marks, object, last)?;
        push_row(&mut self.rows, key, reply)?;
        // The row that stood before goes once nothing can fail any more.
        let Some(place) = known else {
            return Ok(());
        };
        self.rows.set(place, None);
        Ok(())
    }

    /// An equal list. An error is want of memory.
    pub fn copy(&self, alloc: Global) -> Result<Asks, AllocError>
        ensures { IfOk result (λ a. a ≡ self.now) }
    {
        let rows = self.rows.copy(alloc)?;
        let marks = copy_marks(alloc, &self.marks)?;
        Ok(Asks { rows, marks })
    }
}
