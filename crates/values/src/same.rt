// Whether values are the same.

ghost use Rattle.std.specs.Prelude.{◌≡◌, true, map};
ghost use Rattle.values.specs.Values.{value_of, content_of};

use crate::content::Content;
use crate::value::RunValue;

/// Whether the two are as long, and have the same value at each place.
#[cycle(same)]
pub fn are_same_values(a: &[RunValue], b: &[RunValue]) -> bool
    ensures same { result ≡ true → map value_of a.now ≡ map value_of b.now }
    ensures only { map value_of a.now ≡ map value_of b.now → result ≡ true }
{
    if a.len() != b.len() {
        return false;
    }
    for i in 0..a.len() {
        if !a[i].is_same(&b[i]) {
            return false;
        }
    }
    true
}

impl RunValue {
    /// Whether the other is the same number, the same id, or a list of the same values.
    #[cycle(same)]
    pub fn is_same(&self, other: &RunValue) -> bool
        ensures same { result ≡ true → value_of self.now ≡ value_of other.now }
        ensures only { value_of self.now ≡ value_of other.now → result ≡ true }
    {
        match self {
            RunValue::Int(a) => match other {
                RunValue::Int(b) => *a == *b,
                RunValue::List(_) => false,
                RunValue::Id(_) => false,
            },
            RunValue::List(a) => match other {
                RunValue::Int(_) => false,
                RunValue::List(b) => are_same_values(a, b),
                RunValue::Id(_) => false,
            },
            RunValue::Id(a) => match other {
                RunValue::Int(_) => false,
                RunValue::List(_) => false,
                RunValue::Id(b) => a.owner.0 == b.owner.0 && a.serial == b.serial,
            },
        }
    }
}

impl Content {
    /// Whether the other is the same value, or the same trap.
    pub fn is_same(&self, other: &Content) -> bool
        ensures same { result ≡ true → content_of self.now ≡ content_of other.now }
        ensures only { content_of self.now ≡ content_of other.now → result ≡ true }
    {
        match self {
            Content::Value(a) => match other {
                Content::Value(b) => a.is_same(b),
                Content::Trap(_) => false,
            },
            Content::Trap(a) => match other {
                Content::Value(_) => false,
                Content::Trap(b) => *a == *b,
            },
        }
    }
}

/// Whether both are the same number.
fn are_same_numbers(a: &Content, b: &Content) -> bool
    ensures { result ≡ true → content_of a.now ≡ content_of b.now }
{
    match a {
        Content::Value(RunValue::Int(one)) => match b {
            Content::Value(RunValue::Int(other)) => *one == *other,
            _ => false,
        },
        _ => false,
    }
}

/// Whether the two are the same. Most are numbers, which are compared with no call.
fn is_same_content(a: &Content, b: &Content) -> bool
    ensures same { result ≡ true → content_of a.now ≡ content_of b.now }
    ensures only { content_of a.now ≡ content_of b.now → result ≡ true }
{
    are_same_numbers(a, b) || a.is_same(b)
}

/// Whether the two are as long, and have the same content at each place.
pub fn are_same_contents(a: &[Content], b: &[Content]) -> bool
    ensures same { result ≡ true → map content_of a.now ≡ map content_of b.now }
    ensures only { map content_of a.now ≡ map content_of b.now → result ≡ true }
{
    if a.len() != b.len() {
        return false;
    }
    for i in 0..a.len() {
        if !is_same_content(&a[i], &b[i]) {
            return false;
        }
    }
    true
}
