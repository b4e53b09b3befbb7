// Types: whether two are the same, copies, and what they are made of.

ghost use Rattle.std.specs.Prelude.{◌≡◌, IfOk, MatchOption, None, Some, map};
ghost use Rattle.meaning.specs.Syntax.{RefKind};
ghost use Rattle.script_check.specs.Trees.{kind_of};
ghost use Rattle.meaning.specs.Kinds.{has_reference};
ghost use Rattle.script_check.specs.Inference.{same_kind, mark_for};

use script_syntax::ValueType;
use std::alloc::{AllocError, Global};

/// Whether two types are the same.
pub(crate) fn is_same(left: &ValueType, right: &ValueType) -> bool
    ensures { result ≡ same_kind (kind_of left.now) (kind_of right.now) }
{
    match (left, right) {
        (ValueType::Int, ValueType::Int) => true,
        (ValueType::List(left), ValueType::List(right)) => is_same(left, right),
        (ValueType::Ref(left), ValueType::Ref(right)) => is_same(left, right),
        _ => false,
    }
}

/// The same type, in memory of its own. The one error is want of memory.
pub(crate) fn copy_type(alloc: Global, kind: &ValueType) -> Result<ValueType, AllocError>
    ensures { IfOk result (λ t. kind_of t ≡ kind_of kind.now) }
{
    match kind {
        ValueType::Int => Ok(ValueType::Int),
        ValueType::List(items) => Ok(ValueType::List(Box::new(alloc, copy_type(alloc, items)?)?)),
        ValueType::Ref(inner) => Ok(ValueType::Ref(Box::new(alloc, copy_type(alloc, inner)?)?)),
    }
}

/// The same types in order, in memory of their own. The one error is want of memory.
pub(crate) fn copy_types(alloc: Global, kinds: &[ValueType]) -> Result<Vec<ValueType>, AllocError>
    ensures { IfOk result (λ ts. map kind_of ts.items ≡ map kind_of kinds.now) }
{
    let mut copies = Vec::new(alloc);
    for kind in kinds {
        copies.push(copy_type(alloc, kind)?)?;
    }
    Ok(copies)
}

/// The type `ref` of that type. The one error is want of memory.
pub(crate) fn reference_to(alloc: Global, kind: &ValueType) -> Result<ValueType, AllocError>
    ensures { IfOk result (λ t. kind_of t ≡ RefKind (kind_of kind.now)) }
{
    Ok(ValueType::Ref(Box::new(alloc, copy_type(alloc, kind)?)?))
}

/// Whether a reference stands in a type.
pub(crate) fn has_reference(kind: &ValueType) -> bool
    ensures { result ≡ has_reference (kind_of kind.now) }
{
    match kind {
        ValueType::Int => false,
        ValueType::List(items) => has_reference(items),
        ValueType::Ref(_) => true,
    }
}

/// Whether an argument of a type found is marked, where a parameter's type is wanted; none where
/// it is neither of that type nor a reference to one.
pub(crate) fn mark_for(found: &ValueType, wanted: &ValueType) -> Option<bool>
    ensures { result ≡ mark_for (kind_of found.now) (kind_of wanted.now) }
{
    if is_same(found, wanted) {
        return Some(false);
    }
    match found {
        ValueType::Ref(inner) if is_same(inner, wanted) => Some(true),
        _ => None,
    }
}
