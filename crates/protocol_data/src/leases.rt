// The leases of a node's workers, with an index of where each worker's stands.

ghost use Rattle.std.specs.Prelude.{◌≡◌, ◌++◌, ◌∷◌, [], ◌<◌, ◌==◌, ◌&&◌, ℕ, IfOk, IfSome, IfNone, OnErr, OnOk, Option, Some, length, not, slice_get, suc, true, false};
ghost use Rattle.std.specs.List.{filter, find, list_any};
ghost use Rattle.std.specs.Option.{option_map};
ghost use Rattle.event_log.specs.Words.{same_attempt};
ghost use Rattle.protocol_data.specs.declared.node.AskReply.TheVariants.{Leased};
ghost use Rattle.protocol_data.specs.declared.node.Lease.{Lease};
ghost use Rattle.protocol_data.specs.Leased.{AreApart, ArePlaced, blanked, entry_of, has_entry, is_row_of, leases_of, named};
ghost use Rattle.protocol_data.specs.Noted.{is_that_ask, serial_or};

use crate::asks::Asks;
use crate::node::{AskKey, AskReply, Lease};
use ids::{AttemptId, WorkerId};
use sequence::Seq;
use std::alloc::{AllocError, Global};
use std::marker::Model;

/// Workers of higher numbers have no entry: their rows are looked for among all.
const MOST_WORKERS: u32 = 65_536;

fn has_entry(worker: WorkerId) -> bool
    ensures { result ≡ has_entry worker }
{
    worker.0 < MOST_WORKERS
}

/// The worker's entry, 0 where it has none.
fn entry_of(places: &Seq<usize>, worker: WorkerId) -> usize
    ensures { result ≡ entry_of places.now worker }
{
    let at = worker.0 as usize;
    if at >= places.len() {
        return 0;
    }
    *places.get(at)
}

fn is_row_of(worker: WorkerId, row: &Option<Lease>) -> bool
    ensures { result ≡ is_row_of worker row.now }
{
    match row {
        None => false,
        Some(lease) => lease.worker.is(worker),
    }
}

/// The place of the worker's row, looked for among all rows.
fn searched_place(rows: &Seq<Option<Lease>>, worker: WorkerId) -> Option<usize>
    ensures found { IfSome result (λ p. (l : Lease) × (slice_get rows.now p ≡ Some (Some l)) × ((l.worker == worker) ≡ true)) }
    ensures none { IfNone result (list_any (λ l. l.worker == worker) (leases_of rows.now) ≡ false) }
{
    for place in 0..rows.len() {
        if is_row_of(worker, rows.get(place)) {
            return Some(place);
        }
    }
    None
}

/// The place that the entry names, if the worker's row stands there.
fn named_place(rows: &Seq<Option<Lease>>, entry: usize, worker: WorkerId) -> Option<usize>
    ensures found { IfSome result (λ p. (l : Lease) × (slice_get rows.now p ≡ Some (Some l)) × ((l.worker == worker) ≡ true)) }
    ensures none { IfNone result ((i : ℕ) (r : Option Lease) → slice_get rows.now i ≡ Some r → entry ≡ suc i → is_row_of worker r ≡ false) }
{
    if entry == 0 {
        return None;
    }
    let place = entry - 1;
    if place >= rows.len() {
        return None;
    }
    if is_row_of(worker, rows.get(place)) {
        return Some(place);
    }
    None
}

/// The place of the worker's row.
fn place_of(rows: &Seq<Option<Lease>>, places: &Seq<usize>, worker: WorkerId) -> Option<usize>
    requires { ArePlaced places.now 0 rows.now }
    ensures found { IfSome result (λ p. (l : Lease) × (slice_get rows.now p ≡ Some (Some l)) × ((l.worker == worker) ≡ true)) }
    ensures none { IfNone result (list_any (λ l. l.worker == worker) (leases_of rows.now) ≡ false) }
{
    if !has_entry(worker) {
        return searched_place(rows, worker);
    }
    let entry = entry_of(places, worker);
    named_place(rows, entry, worker)
}

fn attempt_of(row: &Option<Lease>) -> Option<AttemptId>
    ensures { result ≡ option_map (λ l. l.attempt) row.now }
{
    match row {
        None => None,
        Some(lease) => Some(lease.attempt),
    }
}

/// To what attempt the worker was given last.
fn attempt_in(rows: &Seq<Option<Lease>>, places: &Seq<usize>, worker: WorkerId) -> Option<AttemptId>
    requires apart { AreApart (leases_of rows.now) }
    requires placed { ArePlaced places.now 0 rows.now }
    ensures { result ≡ option_map (λ l. l.attempt) (find (λ l. l.worker == worker) (leases_of rows.now)) }
{
    let Some(place) = place_of(rows, places, worker) else {
        return None;
    };
    attempt_of(rows.get(place))
}

/// There is an entry for each worker up to that one.
fn lengthen_to(places: &mut Seq<usize>, at: usize) -> Result<(), AllocError>
    requires { at < 65536 }
    ensures long { OnOk result (at < length places.new) }
    ensures kept { (i : ℕ) → serial_or (slice_get places.new i) ≡ serial_or (slice_get places.old i) }
{
    let len = places.len();
    for place in len..at + 1 {
        let _ = place;
        places.push(0)?;
    }
    Ok(())
}

/// There is an entry for the worker, unless its number is too high for one.
fn lengthen(places: &mut Seq<usize>, worker: WorkerId) -> Result<(), AllocError>
    ensures long { OnOk result (has_entry worker ≡ true → worker < length places.new) }
    ensures kept { (i : ℕ) → serial_or (slice_get places.new i) ≡ serial_or (slice_get places.old i) }
{
    if !has_entry(worker) {
        return Ok(());
    }
    lengthen_to(places, worker.0 as usize)
}

/// The worker's entry is that one.
fn name(places: &mut Seq<usize>, worker: WorkerId, entry: usize)
    requires { has_entry worker ≡ true → worker < length places.old }
    ensures { places.new ≡ named places.old worker entry }
{
    if !has_entry(worker) {
        return;
    }
    places.set(worker.0 as usize, entry);
}

/// No row stands at the place.
fn blank(rows: &mut Seq<Option<Lease>>, place: Option<usize>)
    requires { IfSome place (λ p. p < length rows.old) }
    ensures { rows.new ≡ blanked place rows.old }
{
    let Some(place) = place else {
        return;
    };
    rows.set(place, None);
}

/// A row stands last, of the worker's lease of the attempt, and that is noted as the answer to the ask.
fn push_row_with_reply(
    rows: &mut Seq<Option<Lease>>,
    asks: &mut Asks,
    key: &AskKey,
    worker: WorkerId,
) -> Result<(), AllocError>
    ensures rows { OnOk result (rows.new ≡ rows.old ++ Some (record { worker = worker; attempt = key.now.attempt }) ∷ []) }
    ensures asks { OnOk result (asks.new ≡
        filter (λ r. not (is_that_ask key.now r)) asks.old ++ record { key = key.now; reply = Leased worker } ∷ []) }
    ensures rows_err { OnErr result (rows.new ≡ rows.old) }
    ensures asks_err { OnErr result (asks.new ≡ asks.old) }
{
    let items = &mut rows.items;
    // With room for it, the row is put once nothing can fail any more.
    items.reserve(1)?;
    asks.put(key, &AskReply::Leased(worker))?;
    items.push_reserved(Some(Lease {
        worker,
        attempt: key.attempt,
    }));
    Ok(())
}

/// How many places have no row, with the one that was blanked, if one was.
fn blanks_with(blanks: usize, place: Option<usize>) -> usize {
    match place {
        None => blanks,
        Some(_) => blanks.saturating_add(1),
    }
}

/// The latest leases of a node's workers, at most one of each. Contracts see the list, in order of leasing.
///
/// A lease that is put anew stands at the end, and where it stood nothing does. Beside the rows stands of each worker the place of its row: so what a
/// look-up, a lease or a removal costs does not grow with how many there are. Once most places have no row, the rows move together before the next
/// lease: so the places are no more than a few for each worker.
#[derive(Drop, Debug)]
pub struct Leases {
    rows: Seq<Option<Lease>>,
    places: Seq<usize>,
    /// How many of the places have no row.
    blanks: usize,
}

impl Model for Leases {
    ghost use Rattle.std.specs.Prelude.{List};
    ghost use Rattle.std.specs.Coded.{codes};
    ghost use Rattle.ids.specs.Codes.{id_code};
    ghost use Rattle.ids.specs.Codes.{attempt_code};
    ghost use Rattle.protocol_data.specs.declared.node.Lease.{Lease};

    ghost Value = { List Lease };

    ghost coded = { Prim.hlevel (codes, id_code, attempt_code) };

    ghost use Rattle.protocol_data.specs.Leased.{AreApart, ArePlaced, leases_of};

    ghost view = { λ a. leases_of a.rows };

    ghost invariant = { λ a. AreApart (leases_of a.rows) × ArePlaced a.places 0 a.rows };
}

impl Leases {
    /// No worker was given yet.
    pub fn new(alloc: Global) -> Self
        ensures { result ≡ [] }
    {
        Leases {
            rows: Seq::new(alloc),
            places: Seq::new(alloc),
            blanks: 0,
        }
    }

    /// The attempt that the worker was given to last, if its lease stands.
    pub fn attempt_of(&self, worker: WorkerId) -> Option<AttemptId>
        ensures { result ≡ option_map (λ l. l.attempt) (find (λ l. l.worker == worker) self.now) }
    {
        attempt_in(&self.rows, &self.places, worker)
    }

    /// Whether it is the worker's latest lease.
    pub fn is_latest(&self, worker: WorkerId, attempt: AttemptId) -> bool
        ensures { result ≡ list_any (λ l. (l.worker == worker) && same_attempt l.attempt attempt) self.now }
    {
        let Some(latest) = attempt_in(&self.rows, &self.places, worker) else {
            return false;
        };
        latest.is(attempt)
    }

    /// The worker's latest lease is that one, whether or not places have no row.
    fn push(&mut self, lease: Lease) -> Result<(), AllocError>
        ensures ok { OnOk result (self.new ≡ filter (λ l. not (l.worker == lease.worker)) self.old ++ lease ∷ []) }
        ensures err { OnErr result (self.new ≡ self.old) }
    {
        let worker = lease.worker;
        let known = place_of(&self.rows, &self.places, worker);
        lengthen(&mut self.places, worker)?;
        self.rows.push(Some(lease))?;
        // The row that stood before goes once nothing can fail any more.
        let entry = self.rows.len();
        name(&mut self.places, worker, entry);
        blank(&mut self.rows, known);
        self.blanks = blanks_with(self.blanks, known);
        Ok(())
    }

    /// The rows move together, if most places have none.
    fn close_up(&mut self) -> Result<(), AllocError>
        ensures { self.new ≡ self.old }
    {
        if self.blanks <= self.places.len() || self.blanks <= self.rows.len() / 2 {
            return Ok(());
        }
        let alloc = *self.rows.items.allocator();
        let together = self.copy(alloc)?;
        *self = together;
        Ok(())
    }

    /// The worker's latest lease is the attempt's, and that is noted as the answer to the ask, whether or not places have no row.
    fn push_with_reply(
        &mut self,
        asks: &mut Asks,
        key: &AskKey,
        worker: WorkerId,
    ) -> Result<(), AllocError>
        ensures leases { OnOk result (self.new ≡
            filter (λ l. not (l.worker == worker)) self.old ++ record { worker = worker; attempt = key.now.attempt } ∷ []) }
        ensures asks { OnOk result (asks.new ≡
            filter (λ r. not (is_that_ask key.now r)) asks.old ++ record { key = key.now; reply = Leased worker } ∷ []) }
        ensures leases_err { OnErr result (self.new ≡ self.old) }
        ensures asks_err { OnErr result (asks.new ≡ asks.old) }
    {
        let known = place_of(&self.rows, &self.places, worker);
        lengthen(&mut self.places, worker)?;
        push_row_with_reply(&mut self.rows, asks, key, worker)?;
        let entry = self.rows.len();
        name(&mut self.places, worker, entry);
        blank(&mut self.rows, known);
        self.blanks = blanks_with(self.blanks, known);
        Ok(())
    }

    /// The worker's latest lease is the attempt's, and that is noted as the answer to the ask. An error is want of memory, and leaves both as they were.
    pub fn put_with_reply(
        &mut self,
        asks: &mut Asks,
        key: &AskKey,
        worker: WorkerId,
    ) -> Result<(), AllocError>
        ensures leases { OnOk result (self.new ≡
            filter (λ l. not (l.worker == worker)) self.old ++ record { worker = worker; attempt = key.now.attempt } ∷ []) }
        ensures asks { OnOk result (asks.new ≡
            filter (λ r. not (is_that_ask key.now r)) asks.old ++ record { key = key.now; reply = Leased worker } ∷ []) }
        ensures leases_err { OnErr result (self.new ≡ self.old) }
        ensures asks_err { OnErr result (asks.new ≡ asks.old) }
    {
        self.close_up()?;
        self.push_with_reply(asks, key, worker)
    }

    /// Takes out the worker's lease, if it has one.
    pub fn remove(&mut self, worker: WorkerId)
        ensures { self.new ≡ filter (λ l. not (l.worker == worker)) self.old }
    {
        let known = place_of(&self.rows, &self.places, worker);
        blank(&mut self.rows, known);
        self.blanks = blanks_with(self.blanks, known);
    }

    /// An equal list, the rows together. An error is want of memory.
    #[inline(always)]
    pub fn copy(&self, alloc: Global) -> Result<Leases, AllocError>
        ensures { IfOk result (λ a. a ≡ self.now) }
    {
        together(alloc, &self.rows)
    }

    /// Adds the row's lease, if it has one.
    fn push_if_any(&mut self, row: &Option<Lease>) -> Result<(), AllocError>
        requires { IfSome row.now (λ l. list_any (λ m. m.worker == l.worker) self.old ≡ false) }
        ensures { OnOk result (self.new ≡ self.old ++ leases_of (row.now ∷ [])) }
    {
        let Some(lease) = row else {
            return Ok(());
        };
        self.push(*lease)?;
        Ok(())
    }
}

/// The leases of the rows, with no place between them.
fn together(alloc: Global, rows: &Seq<Option<Lease>>) -> Result<Leases, AllocError>
    requires { AreApart (leases_of rows.now) }
    ensures { IfOk result (λ a. a ≡ leases_of rows.now) }
{
    let mut again = Leases::new(alloc);
    for row in &rows.items {
        again.push_if_any(row)?;
    }
    Ok(again)
}
