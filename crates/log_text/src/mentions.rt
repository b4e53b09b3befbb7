// Whether an object stands in a value.

ghost use Rattle.std.specs.Prelude.{◌≡◌, IfOk, map};
ghost use Rattle.std.specs.List.{list_any};
ghost use Rattle.values.specs.Values.{content_of};
ghost use Rattle.task_spec.specs.Births.{argument_of, birth_of};
ghost use Rattle.log_text.specs.Mentions.{is_among, is_in_argument, is_in_birth, is_in_content, is_in_contents};

use held::{SharedContent, SmallList};
use ids::ObjectId;
use log_words::ids_of;
use std::alloc::{AllocError, Global};
use task_spec::{Argument, Birth};
use values::{Content, ids_in};

/// Whether the object is one of them.
pub fn is_among(object: ObjectId, ids: &[ObjectId]) -> bool
    ensures { result ≡ is_among object ids.now }
{
    for id in ids {
        if id.is(object) {
            return true;
        }
    }
    false
}

fn is_in_argument(alloc: Global, object: ObjectId, argument: &Argument) -> Result<bool, AllocError>
    ensures { IfOk result (λ b. b ≡ is_in_argument object (argument_of argument.now)) }
{
    let ids = ids_of(alloc, &argument.value)?;
    Ok(is_among(object, &ids))
}

fn is_in_arguments(
    alloc: Global,
    object: ObjectId,
    arguments: &[Argument],
) -> Result<bool, AllocError>
    ensures { IfOk result (λ b. b ≡ list_any (is_in_argument object) (map argument_of arguments.now)) }
{
    for argument in arguments {
        if is_in_argument(alloc, object, argument)? {
            return Ok(true);
        }
    }
    Ok(false)
}

/// Whether the object stands in the put value, or in an argument of the call.
#[tactic(auto, unfolding(crate::specs::Mentions::is_in_birth))]
pub fn is_in_birth(alloc: Global, object: ObjectId, birth: &Birth) -> Result<bool, AllocError>
    ensures { IfOk result (λ b. b ≡ is_in_birth object (birth_of birth.now)) }
{
    match birth {
        Birth::Put(value) => {
            let ids = ids_of(alloc, value)?;
            Ok(is_among(object, &ids))
        }
        Birth::Task { arguments, .. } => is_in_arguments(alloc, object, arguments.as_slice()),
    }
}

/// Whether the object stands in the content.
#[tactic(auto, unfolding(crate::specs::Mentions::is_in_content))]
pub fn is_in_content(alloc: Global, object: ObjectId, content: &Content) -> Result<bool, AllocError>
    ensures { IfOk result (λ b. b ≡ is_in_content object (content_of content.now)) }
{
    let ids = ids_in(content, alloc)?;
    Ok(is_among(object, &ids))
}

/// Whether the object stands in a content of the results.
#[tactic(auto, unfolding(crate::specs::Mentions::is_in_contents))]
pub fn is_in_contents(
    alloc: Global,
    object: ObjectId,
    contents: &SmallList<SharedContent>,
) -> Result<bool, AllocError>
    ensures { IfOk result (λ b. b ≡ is_in_contents object contents.now) }
{
    for content in contents.as_slice() {
        if is_in_content(alloc, object, &content.inner)? {
            return Ok(true);
        }
    }
    Ok(false)
}
