// What is wanted of an expression's type, and what is told where it has another.

use crate::kind::Kind;
use crate::stop::{Stop, stop_at};
use script_syntax::Span;
use std::alloc::Global;
use std::fmt;

/// What is wanted of a type.
#[derive(Drop)]
pub(crate) enum Wanted {
    /// An `int`.
    Number,
    /// This type.
    Exactly(Kind),
    /// A type, or a reference to it.
    OrReference(Kind),
    /// A list of whatever items.
    List,
    /// A reference to whatever value.
    Reference,
    /// A type in which no reference stands.
    NoReference,
}

impl Wanted {
    fn is_met(&self, found: &Kind) -> bool {
        match self {
            Wanted::Number => found.is_number(),
            Wanted::Exactly(kind) => found.is(kind),
            Wanted::OrReference(kind) => found.is(kind) || found.is_reference_to(kind),
            Wanted::List => found.is_list(),
            Wanted::Reference => found.is_reference(),
            Wanted::NoReference => !found.has_reference(),
        }
    }
}

impl fmt::Display for Wanted {
    fn fmt<W: fmt::Write>(&self, f: &mut fmt::Formatter<W>) -> fmt::Result {
        match self {
            Wanted::Number => f.write_str("int"),
            Wanted::Exactly(kind) => write!(f, "{kind}"),
            Wanted::OrReference(kind) => write!(f, "{kind} or ref {kind}"),
            Wanted::List => f.write_str("a list"),
            Wanted::Reference => f.write_str("a reference"),
            Wanted::NoReference => f.write_str("a type with no ref in it"),
        }
    }
}

/// The type of an expression, where it is as it is wanted for that.
pub(crate) fn met(
    alloc: Global,
    found: Kind,
    wanted: Wanted,
    purpose: &'static str,
    span: Span,
) -> Result<Kind, Stop> {
    if wanted.is_met(&found) {
        return Ok(found);
    }
    let told = format!(in alloc; "    expected: {wanted}, {purpose}\n    found: {found}")?;
    Err(stop_at(11, span, told))
}
