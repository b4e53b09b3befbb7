// What an object has once it is made: a value, or the trap of its call.

ghost use Rattle.std.specs.Prelude.{◌≡◌, IfOk, map};
ghost use Rattle.values.specs.Values.{content_of};
ghost use Rattle.values.specs.Listed.{ids_in_outcome, each_once};

use crate::value::{RunValue, add_ids};
use ids::ObjectId;
use std::alloc::{AllocError, Global};

/// How a call of a script ends without a value. A trap belongs to the script's meaning, and whoever gets the call's result has it.
#[derive(Clone, Copy, PartialEq, Eq, Debug)]
pub enum Trap {
    /// A result outside the 64-bit signed integers.
    Overflow,
    /// A quotient or a remainder by 0.
    DivZero,
    /// An index outside a list.
    Index,
    /// A list of more than 4,096 items.
    TooLong,
    /// A loop of more than 10,000 turns.
    Loop,
    /// A call at depth 33 or more.
    TooDeep,
}

/// What an object has: the value that was put or that its call returned, or the trap in which the call ended.
#[derive(Drop)]
pub enum Content {
    /// The value that was put, or that the call returned.
    Value(RunValue),
    /// The trap in which the call ended.
    Trap(Trap),
}

impl Content {
    /// An equal content.
    pub fn copy(&self, alloc: Global) -> Result<Content, AllocError>
        ensures { IfOk result (λ r. content_of r ≡ content_of self.now) }
    {
        match self {
            Content::Value(value) => Ok(Content::Value(value.copy(alloc)?)),
            Content::Trap(trap) => Ok(Content::Trap(*trap)),
        }
    }
}

/// The same contents in order, in memory of their own. The one error is want of memory.
pub fn copy_contents(contents: &[Content], alloc: Global) -> Result<Vec<Content>, AllocError>
    ensures { IfOk result (λ copies. map content_of copies.items ≡ map content_of contents.now) }
{
    let mut copies = Vec::with_capacity(alloc, contents.len())?;
    for content in contents {
        copies.push(content.copy(alloc)?)?;
    }
    Ok(copies)
}

/// The ids in a content, in order of first place, each once.
pub fn ids_in(content: &Content, alloc: Global) -> Result<Vec<ObjectId>, AllocError>
    ensures { IfOk result (λ ids. ids.items ≡ each_once (ids_in_outcome (content_of content.now))) }
{
    let mut found = Vec::new(alloc);
    match content {
        Content::Trap(_) => Ok(found),
        Content::Value(value) => {
            add_ids(value, &mut found)?;
            Ok(found)
        }
    }
}
