//! A list that grows at its end, and whose copies share its items.
#![tactic(auto)]

ghost use Rattle.std.specs.Prelude.{◌≡◌, ◌<◌, ◌≤◌, ◌∷◌, ◌++◌, [], IfOk, OnOk, OnErr, length, map};
ghost use Rattle.std.specs.Arc.{arc_value};
ghost use Rattle.trail.specs.Chunks.{AreFull, chunks_of, items_in, items_of, last_items};

use std::alloc::{AllocError, Global};
use std::marker::Model;
use std::mem;
use std::sync::Arc;

/// So many items share a chunk.
const ITEMS_OF_A_CHUNK: usize = 64;

/// A list that contracts see as a list. Copies share its items, in chunks of 64, and the list of the full chunks: one costs two pointers, however many
/// items there are. An item is added in place where no copy shares the chunk behind the last full one; else that chunk is made anew, with the same
/// items, and so is the list of the full ones where one more comes to it. The list and its copies may stand in different threads.
#[derive(Drop)]
pub struct Trail<T> {
    full: Option<Arc<Vec<Arc<Vec<Arc<T>>>>>>,
    last: Option<Arc<Vec<Arc<T>>>>,
    count: usize,
}

impl<T> Model for Trail<T> {
    ghost use Rattle.std.specs.Prelude.{◌≡◌, ◌≤◌, ◌++◌, List, length};
    ghost use Rattle.trail.specs.Chunks.{AreFull, chunks_of, items_in, last_items};

    ghost Value = { List T };

    ghost view = { λ t. items_in (chunks_of t.full) ++ last_items t.last };

    ghost invariant = { λ t. (t.count ≡ length (items_in (chunks_of t.full) ++ last_items t.last)) × AreFull (chunks_of t.full)
        × (length (last_items t.last) ≤ 64) };
}

/// The same chunks.
fn share_chunks<T: Drop>(
    alloc: Global,
    chunks: &[Arc<Vec<Arc<T>>>],
) -> Result<Vec<Arc<Vec<Arc<T>>>>, AllocError>
    ensures items { IfOk result (λ cs. items_in cs.items ≡ items_in chunks.now) }
    ensures full { IfOk result (λ cs. AreFull chunks.now → AreFull cs.items) }
{
    let mut shared = Vec::new(alloc);
    for chunk in chunks {
        shared.push(Arc::try_clone(chunk)?)?;
    }
    Ok(shared)
}

/// Adds the items, which are shared from then on.
#[tactic(auto, using(crate::proofs::Shared::added))]
fn share_items<T: Drop>(shared: &mut Vec<Arc<T>>, items: &[Arc<T>]) -> Result<(), AllocError>
    ensures { OnOk result (map arc_value shared.new.items ≡ map arc_value shared.old.items ++ map arc_value items.now) }
{
    for item in items {
        shared.push(Arc::try_clone(item)?)?;
    }
    Ok(())
}

/// Adds the items of the chunks, which are shared from then on.
fn add_items<T: Drop>(
    shared: &mut Vec<Arc<T>>,
    chunks: &[Arc<Vec<Arc<T>>>],
) -> Result<(), AllocError>
    ensures { OnOk result (map arc_value shared.new.items ≡ map arc_value shared.old.items ++ items_in chunks.now) }
{
    for chunk in chunks {
        share_items(shared, chunk)?;
    }
    Ok(())
}

/// The same chunk, if there is one.
fn share_last<T: Drop>(
    last: &Option<Arc<Vec<Arc<T>>>>,
) -> Result<Option<Arc<Vec<Arc<T>>>>, AllocError>
    ensures { IfOk result (λ other. last_items other ≡ last_items last.now) }
{
    match last {
        None => Ok(None),
        Some(chunk) => Ok(Some(Arc::try_clone(chunk)?)),
    }
}

/// A chunk of one item.
fn new_chunk<T: Drop>(alloc: Global, item: Arc<T>) -> Result<Arc<Vec<Arc<T>>>, AllocError>
    ensures { IfOk result (λ chunk. items_of chunk ≡ arc_value item ∷ []) }
{
    let mut items = Vec::new(alloc);
    items.push(item)?;
    Ok(Arc::new(alloc, items)?)
}

/// The chunk with an item more, which is added in place where nobody else has the chunk.
fn add_to<T: Drop>(
    alloc: Global,
    chunk: Arc<Vec<Arc<T>>>,
    item: Arc<T>,
) -> Result<Arc<Vec<Arc<T>>>, AllocError>
    ensures { IfOk result (λ more. items_of more ≡ items_of chunk ++ arc_value item ∷ []) }
{
    let mut chunk = chunk;
    if let Some(items) = Arc::get_mut(&mut chunk) {
        items.push(item)?;
        return Ok(chunk);
    }
    let mut items = Vec::new(alloc);
    items.reserve(ITEMS_OF_A_CHUNK)?;
    share_items(&mut items, &chunk)?;
    items.push(item)?;
    Ok(Arc::new(alloc, items)?)
}

/// The same full chunks, if there are any.
fn share_full<T: Drop>(
    full: &Option<Arc<Vec<Arc<Vec<Arc<T>>>>>>,
) -> Result<Option<Arc<Vec<Arc<Vec<Arc<T>>>>>>, AllocError>
    ensures { IfOk result (λ other. chunks_of other ≡ chunks_of full.now) }
{
    match full {
        None => Ok(None),
        Some(chunks) => Ok(Some(Arc::try_clone(chunks)?)),
    }
}

/// The first full chunk.
fn first_chunk<T: Drop>(
    alloc: Global,
    chunk: Arc<Vec<Arc<T>>>,
) -> Result<Arc<Vec<Arc<Vec<Arc<T>>>>>, AllocError>
    ensures { IfOk result (λ chunks. (arc_value chunks).items ≡ chunk ∷ []) }
{
    let mut chunks = Vec::new(alloc);
    chunks.push(chunk)?;
    Ok(Arc::new(alloc, chunks)?)
}

/// The full chunks with one more, which is added in place where nobody else has their list.
fn add_full<T: Drop>(
    alloc: Global,
    full: Option<Arc<Vec<Arc<Vec<Arc<T>>>>>>,
    chunk: Arc<Vec<Arc<T>>>,
) -> Result<Arc<Vec<Arc<Vec<Arc<T>>>>>, AllocError>
    ensures items { IfOk result (λ chunks. items_in (arc_value chunks).items ≡ items_in (chunks_of full) ++ items_of chunk) }
    ensures full { IfOk result (λ chunks. AreFull (chunks_of full) → length (items_of chunk) ≡ 64 → AreFull (arc_value chunks).items) }
{
    let Some(chunks) = full else {
        return first_chunk(alloc, chunk);
    };
    let mut chunks = chunks;
    if let Some(all) = Arc::get_mut(&mut chunks) {
        all.push(chunk)?;
        return Ok(chunks);
    }
    let mut all = share_chunks(alloc, &chunks)?;
    all.push(chunk)?;
    Ok(Arc::new(alloc, all)?)
}

/// The chunk behind the full ones, with an item more; where it was full it stands with those now, and the item is the first of a new one.
fn add<T: Drop>(
    alloc: Global,
    full: &mut Option<Arc<Vec<Arc<Vec<Arc<T>>>>>>,
    last: Option<Arc<Vec<Arc<T>>>>,
    item: Arc<T>,
) -> Result<Arc<Vec<Arc<T>>>, AllocError>
    requires { length (last_items last) ≤ 64 }
    ensures items { IfOk result (λ chunk. items_in (chunks_of full.new) ++ items_of chunk
        ≡ (items_in (chunks_of full.old) ++ last_items last) ++ arc_value item ∷ []) }
    ensures full { OnOk result (AreFull (chunks_of full.old) → AreFull (chunks_of full.new)) }
    ensures room { IfOk result (λ chunk. length (items_of chunk) ≤ 64) }
{
    let Some(chunk) = last else {
        return new_chunk(alloc, item);
    };
    if chunk.len() < ITEMS_OF_A_CHUNK {
        return add_to(alloc, chunk, item);
    }
    let next = new_chunk(alloc, item)?;
    *full = Some(add_full(alloc, full.take(), chunk)?);
    Ok(next)
}

impl<T> Trail<T> {
    /// The empty list.
    pub fn new() -> Trail<T>
        ensures { result ≡ [] }
    {
        Trail {
            full: None,
            last: None,
            count: 0,
        }
    }

    /// How many items there are. It is kept beside them, so that no chunk is counted.
    pub fn len(&self) -> usize
        ensures { result ≡ length self.now }
    {
        self.count
    }
}

impl<T: Drop> Trail<T> {
    /// The list, with an item at its end.
    fn with(self, alloc: Global, item: Arc<T>) -> Result<Trail<T>, AllocError>
        ensures { IfOk result (λ more. more ≡ self ++ arc_value item ∷ []) }
    {
        let Trail { full, last, count } = self;
        let mut full = full;
        let Some(count) = count.checked_add(1) else {
            // No memory has room for one item more than these: the growth is refused.
            let mut items: Vec<Arc<T>> = Vec::new(alloc);
            items.reserve(usize::MAX)?;
            unreachable!();
        };
        let chunk = add(alloc, &mut full, last, item)?;
        let last = Some(chunk);
        Ok(Trail { full, last, count })
    }

    /// Adds an item at the end, behind a full chunk in a new one. After an error, which is want of memory, the list is empty.
    pub fn push(&mut self, alloc: Global, item: T) -> Result<(), AllocError>
        ensures ok { OnOk result (self.new ≡ self.old ++ item ∷ []) }
        ensures err { OnErr result (self.new ≡ []) }
    {
        let list = mem::replace(self, Trail::new());
        let item = Arc::new(alloc, item)?;
        *self = list.with(alloc, item)?;
        Ok(())
    }

    /// Adds an item that is shared already: only a pointer is kept. After an error, which is want of memory, the list is empty.
    pub fn push_shared(&mut self, alloc: Global, item: Arc<T>) -> Result<(), AllocError>
        ensures ok { OnOk result (self.new ≡ self.old ++ arc_value item ∷ []) }
        ensures err { OnErr result (self.new ≡ []) }
    {
        let list = mem::replace(self, Trail::new());
        *self = list.with(alloc, item)?;
        Ok(())
    }

    /// An equal list, which shares all items. An error is want of memory.
    pub fn copy(&self) -> Result<Trail<T>, AllocError>
        ensures { IfOk result (λ other. other ≡ self.now) }
    {
        let full = share_full(&self.full)?;
        let last = share_last(&self.last)?;
        Ok(Trail {
            full,
            last,
            count: self.count,
        })
    }

    /// The items, in order. An error is want of memory.
    pub fn items(&self, alloc: Global) -> Result<Vec<Arc<T>>, AllocError>
        ensures { IfOk result (λ items. map arc_value items.items ≡ self.now) }
    {
        let mut items = Vec::new(alloc);
        if let Some(full) = &self.full {
            add_items(&mut items, full)?;
        }
        if let Some(chunk) = &self.last {
            share_items(&mut items, chunk)?;
        }
        Ok(items)
    }
}
