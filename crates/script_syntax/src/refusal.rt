// Why tokens are no program.

ghost use Rattle.std.specs.Prelude.{◌≡◌};
ghost use Rattle.script_syntax.specs.declared.refusal.Refusal.TheVariants.{NoMemory};

use script_tokens::Span;
use std::alloc::{AllocError, AllocFailed};

/// Why tokens are no program, and where.
#[derive(Clone, Copy, Drop)]
pub(crate) enum Refusal {
    /// A token that the grammar does not allow there, or the end of the text.
    Expected(Span),
    /// The first token past a limit.
    TooLarge(Span),
    /// Memory ran out.
    NoMemory,
}

impl From<AllocError> for Refusal {
    ghost from_gives = { λ _ e. e ≡ NoMemory };

    fn from(_e: AllocError) -> Refusal {
        Refusal::NoMemory
    }
}

impl<T: Drop> From<AllocFailed<T>> for Refusal {
    ghost from_gives = { λ _ e. e ≡ NoMemory };

    fn from(_e: AllocFailed<T>) -> Refusal {
        Refusal::NoMemory
    }
}
