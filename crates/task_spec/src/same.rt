// Whether births are the same.

ghost use Rattle.std.specs.Prelude.{◌≡◌, true, map};
ghost use Rattle.task_spec.specs.Births.{argument_of, birth_of};

use crate::birth::{Argument, Birth};

impl Argument {
    /// Whether the other has the same value, and is dereferenced if and only if this one is.
    pub fn is_same(&self, other: &Argument) -> bool
        ensures same { result ≡ true → argument_of self.now ≡ argument_of other.now }
        ensures only { argument_of self.now ≡ argument_of other.now → result ≡ true }
    {
        self.is_dereferenced == other.is_dereferenced && self.value.is_same(&other.value)
    }
}

/// Whether the two are as many, and have the same argument at each place.
fn are_same_arguments(a: &[Argument], b: &[Argument]) -> bool
    ensures same { result ≡ true → map argument_of a.now ≡ map argument_of b.now }
    ensures only { map argument_of a.now ≡ map argument_of b.now → result ≡ true }
{
    if a.len() != b.len() {
        return false;
    }
    for i in 0..a.len() {
        if !a[i].is_same(&b[i]) {
            return false;
        }
    }
    true
}

impl Birth {
    /// Whether the other puts the same value, or is the same call with the same depth and retries.
    pub fn is_same(&self, other: &Birth) -> bool
        ensures same { result ≡ true → birth_of self.now ≡ birth_of other.now }
        ensures only { birth_of self.now ≡ birth_of other.now → result ≡ true }
    {
        match self {
            Birth::Put(a) => match other {
                Birth::Put(b) => a.is_same(b),
                Birth::Task { .. } => false,
            },
            Birth::Task {
                function,
                arguments,
                depth,
                retries,
                others,
            } => match other {
                Birth::Put(_) => false,
                Birth::Task {
                    function: other_function,
                    arguments: other_arguments,
                    depth: other_depth,
                    retries: other_retries,
                    others: other_others,
                } => {
                    function.as_str() == other_function.as_str()
                        && *depth == *other_depth
                        && *retries == *other_retries
                        && *others == *other_others
                        && are_same_arguments(arguments.as_slice(), other_arguments.as_slice())
                }
            },
        }
    }
}

/// Whether the two are as many, and have the same birth at each place.
pub fn are_same_births(a: &[Birth], b: &[Birth]) -> bool
    ensures same { result ≡ true → map birth_of a.now ≡ map birth_of b.now }
    ensures only { map birth_of a.now ≡ map birth_of b.now → result ≡ true }
{
    if a.len() != b.len() {
        return false;
    }
    for i in 0..a.len() {
        if !a[i].is_same(&b[i]) {
            return false;
        }
    }
    true
}
