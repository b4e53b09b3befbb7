// The refusal that has a name, and which names are near one that nothing has.

ghost use Rattle.std.specs.Prelude.{◌≡◌, IfSome, true};
ghost use Rattle.raysim_explain.specs.Texts.{name_of};
ghost use Rattle.refusal_reasons.specs.Names.{are_letters};

use crate::ending::ENDINGS;
use crate::near::{are_letters, how_near};
use raysim_explain::RefusalCause;
use std::fmt;

/// The greatest number of a refusal.
const MOST_REFUSAL: u8 = 50;

/// The refusal with this name, in letters of either case, if there is one.
pub fn refusal_named(name: &[u8]) -> Option<RefusalCause>
    ensures { IfSome result (λ r. are_letters (name_of r) name.now ≡ true) }
{
    for number in 1..=MOST_REFUSAL {
        if let Some(cause) = RefusalCause::of(number) {
            if are_letters(cause.name().as_bytes(), name) {
                return Some(cause);
            }
        }
    }
    None
}

/// A name that nothing has. Its text is the names that are near, each behind a space.
#[derive(Clone, Copy, Debug)]
pub struct NearNames<'a>(pub &'a [u8]);

impl NearNames<'_> {
    /// Whether any name is near.
    pub fn are_some(self) -> bool {
        for ending in ENDINGS {
            if how_near(ending.name().as_bytes(), self.0).is_some() {
                return true;
            }
        }
        for number in 1..=MOST_REFUSAL {
            if let Some(cause) = RefusalCause::of(number) {
                if how_near(cause.name().as_bytes(), self.0).is_some() {
                    return true;
                }
            }
        }
        false
    }
}

impl fmt::Display for NearNames<'_> {
    fn fmt<W: fmt::Write>(&self, f: &mut fmt::Formatter<W>) -> fmt::Result {
        for ending in ENDINGS {
            let name = ending.name();
            if how_near(name.as_bytes(), self.0).is_some() {
                write!(f, " {name}")?;
            }
        }
        for number in 1..=MOST_REFUSAL {
            if let Some(cause) = RefusalCause::of(number) {
                let name = cause.name();
                if how_near(name.as_bytes(), self.0).is_some() {
                    write!(f, " {name}")?;
                }
            }
        }
        Ok(())
    }
}
