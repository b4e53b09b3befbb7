// The secondary copies at a node, the one used last first.

ghost use Rattle.std.specs.Prelude.{◌≡◌, [], IfOk, OnOk, OnErr, MatchOption, Some, None};
ghost use Rattle.std.specs.List.{find, list_any};
ghost use Rattle.std.specs.Option.{option_map};
ghost use Rattle.std.specs.Map.{remove_entry};
ghost use Rattle.lru.specs.LruCache.{lru_cache, put_entries};
ghost use Rattle.protocol_data.specs.Recent.{brought_to_front, copies_of, key_in, put_first, same_key};
ghost use Rattle.protocol_data.specs.Shelves.{is_sought, without};

use crate::store::Copy;
use ids::ObjectId;
use log_entries::SharedContent;
use lru::LruCache;
use std::alloc::{AllocError, Global};
use std::marker::Model;
use std::num::NonZeroUsize;

/// So many copies are kept at most.
const MOST_COPIES: usize = 16;

/// What a copy is known by: its object, and the number of the attempt whose content it is, 0 for what was put.
#[derive(Clone, Copy, PartialEq, Eq, Hash, Debug)]
pub struct CopyKey {
    pub object: ObjectId,
    /// The number of the attempt whose content it is, 0 for what was put.
    pub number: u32,
}

fn new_cache(alloc: Global) -> Result<LruCache<CopyKey, SharedContent>, AllocError>
    ensures { IfOk result (λ c. c ≡ lru_cache [] 16) }
{
    LruCache::new(alloc, NonZeroUsize::new(MOST_COPIES).unwrap())
}

/// The key of the first copy of the object.
fn key_of(cache: &LruCache<CopyKey, SharedContent>, object: ObjectId) -> Option<CopyKey>
    ensures { result ≡ option_map key_in (find (is_sought object None) (copies_of cache.now.entries)) }
{
    let mut rest = cache.iter();
    while let Some((key, _)) = rest.next() {
        if key.object.is(object) {
            return Some(*key);
        }
    }
    None
}

/// The content under the key.
fn content_under(
    cache: &LruCache<CopyKey, SharedContent>,
    object: ObjectId,
    number: u32,
) -> Option<&SharedContent>
    ensures { MatchOption result
        (find (is_sought object (Some number)) (copies_of cache.now.entries) ≡ None)
        (λ c. option_map (λ x. x.content) (find (is_sought object (Some number)) (copies_of cache.now.entries)) ≡ Some c.now) }
{
    cache.peek(&CopyKey { object, number })
}

/// Puts a content under the key, as the one used last.
fn put_under(
    cache: &mut LruCache<CopyKey, SharedContent>,
    key: CopyKey,
    content: SharedContent,
) -> Result<(), AllocError>
    ensures ok { OnOk result (cache.new ≡ lru_cache (put_entries same_key cache.old key content) cache.old.cap) }
    ensures err { OnErr result (cache.new ≡ cache.old) }
{
    cache.put(key, content)?;
    Ok(())
}

/// Puts the copy as the one used last, in place of one of the same key.
fn put_copy(cache: &mut LruCache<CopyKey, SharedContent>, copy: Copy) -> Result<(), AllocError>
    requires { cache.old.cap ≡ 16 }
    ensures cap { cache.new.cap ≡ 16 }
    ensures ok { OnOk result (copies_of cache.new.entries ≡ put_first copy (copies_of cache.old.entries)) }
    ensures err { OnErr result (cache.new ≡ cache.old) }
{
    // What `len` ensures says that no key is there twice.
    let _ = cache.len();
    let Copy {
        object,
        number,
        content,
    } = copy;
    put_under(cache, CopyKey { object, number }, content)?;
    Ok(())
}

/// The copy under the key is the one used last, if there is one.
fn promote(cache: &mut LruCache<CopyKey, SharedContent>, object: ObjectId, number: u32)
    ensures cap { cache.new.cap ≡ cache.old.cap }
    ensures copies { copies_of cache.new.entries ≡ brought_to_front object number (copies_of cache.old.entries) }
{
    let _ = cache.len();
    let _ = cache.promote(&CopyKey { object, number });
}

/// Takes out the copy under the key.
fn take_out(cache: &mut LruCache<CopyKey, SharedContent>, key: CopyKey)
    ensures { cache.new ≡ lru_cache (remove_entry (same_key key) cache.old.entries) cache.old.cap }
{
    drop(cache.pop(&key));
}

/// Takes out the copies of the object.
fn take_all(cache: &mut LruCache<CopyKey, SharedContent>, object: ObjectId)
    ensures cap { cache.new.cap ≡ cache.old.cap }
    ensures copies { copies_of cache.new.entries ≡ without object None (copies_of cache.old.entries) }
{
    while let Some(key) = key_of(cache, object) {
        take_out(cache, key);
    }
}

/// An equal cache.
fn copy_cache(
    alloc: Global,
    cache: &LruCache<CopyKey, SharedContent>,
) -> Result<LruCache<CopyKey, SharedContent>, AllocError>
    ensures { IfOk result (λ c. c ≡ cache.now) }
{
    let _ = cache.len();
    let mut again = LruCache::new(alloc, cache.cap())?;
    let mut rest = cache.iter();
    while let Some((key, content)) = rest.next_back() {
        put_under(&mut again, *key, content.copy(alloc)?)?;
    }
    Ok(again)
}

/// Copies, the one used last first, sixteen at most. Contracts see the list.
///
/// The cache is made at the first copy, so that having none takes no memory.
#[derive(Drop)]
pub struct Secondaries {
    cache: Option<LruCache<CopyKey, SharedContent>>,
}

impl Model for Secondaries {
    ghost use Rattle.std.specs.Prelude.{List};
    ghost use Rattle.std.specs.Coded.{codes};
    ghost use Rattle.ids.specs.Codes.{id_code};
    ghost use Rattle.log_entries.specs.of_held.Codes.{outcome_code};
    ghost use Rattle.protocol_data.specs.declared.store.Copy.{Copy};

    ghost Value = { List Copy };

    ghost coded = { Prim.hlevel (codes, outcome_code, id_code) };

    ghost use Rattle.protocol_data.specs.Recent.{HoldsSixteen, copies_in};

    ghost view = { λ s. copies_in s.cache };

    ghost invariant = { λ s. HoldsSixteen s.cache };
}

impl Secondaries {
    /// No copies.
    pub fn new() -> Self
        ensures { result ≡ [] }
    {
        Secondaries { cache: None }
    }

    /// Whether there is a copy of the object.
    pub fn has_any_of(&self, object: ObjectId) -> bool
        ensures { result ≡ list_any (is_sought object None) self.now }
    {
        match &self.cache {
            None => false,
            Some(cache) => key_of(cache, object).is_some(),
        }
    }

    /// The content of the copy of that attempt of the object. The order stays.
    pub fn find(&self, object: ObjectId, number: u32) -> Option<&SharedContent>
        ensures { MatchOption result
            (find (is_sought object (Some number)) self.now ≡ None)
            (λ c. option_map (λ x. x.content) (find (is_sought object (Some number)) self.now) ≡ Some c.now) }
    {
        match &self.cache {
            None => None,
            Some(cache) => content_under(cache, object, number),
        }
    }

    /// Puts the copy as the one used last, in place of one of the same attempt and object. Where there are sixteen others, the one used
    /// longest ago goes. An error is want of memory, and leaves the copies as they were.
    pub fn put(&mut self, alloc: Global, copy: Copy) -> Result<(), AllocError>
        ensures ok { OnOk result (self.new ≡ put_first copy self.old) }
        ensures err { OnErr result (self.new ≡ self.old) }
    {
        if let Some(cache) = &mut self.cache {
            return put_copy(cache, copy);
        }
        let mut cache = new_cache(alloc)?;
        put_copy(&mut cache, copy)?;
        self.cache = Some(cache);
        Ok(())
    }

    /// The copy of that attempt of the object is the one used last, if there is one. It takes no memory.
    pub fn bring_to_front(&mut self, object: ObjectId, number: u32)
        ensures { self.new ≡ brought_to_front object number self.old }
    {
        if let Some(cache) = &mut self.cache {
            promote(cache, object, number);
        }
    }

    /// Takes out the copies of the object. It takes no memory.
    pub fn remove_all_of(&mut self, object: ObjectId)
        ensures { self.new ≡ without object None self.old }
    {
        if let Some(cache) = &mut self.cache {
            take_all(cache, object);
        }
    }

    /// Equal copies. An error is want of memory.
    pub fn copy(&self, alloc: Global) -> Result<Secondaries, AllocError>
        ensures { IfOk result (λ s. s ≡ self.now) }
    {
        let Some(cache) = &self.cache else {
            return Ok(Secondaries::new());
        };
        let cache = copy_cache(alloc, cache)?;
        Ok(Secondaries { cache: Some(cache) })
    }
}
