// Types of expressions, as far as they are told.

use script_syntax::ValueType;
use std::alloc::{AllocError, Global};
use std::fmt;

/// What makes a type of another one.
#[derive(Clone, Copy, Debug, PartialEq, Eq)]
enum Maker {
    List,
    Ref,
}

/// A type: a number, and what is made of it, one after the other.
#[derive(Drop)]
pub(crate) struct Kind {
    makers: Vec<Maker>,
}

/// Puts what makes a type at the end.
fn put_makers(makers: &mut Vec<Maker>, kind: &ValueType) -> Result<(), AllocError> {
    match kind {
        ValueType::Int => Ok(()),
        ValueType::List(items) => {
            put_makers(makers, items)?;
            makers.push(Maker::List)?;
            Ok(())
        }
        ValueType::Ref(inner) => {
            put_makers(makers, inner)?;
            makers.push(Maker::Ref)?;
            Ok(())
        }
    }
}

impl Kind {
    /// The type `int`.
    pub(crate) fn number(alloc: Global) -> Kind {
        Kind {
            makers: Vec::new(alloc),
        }
    }

    /// A type as it is written.
    pub(crate) fn of(alloc: Global, kind: &ValueType) -> Result<Kind, AllocError> {
        let mut makers = Vec::new(alloc);
        put_makers(&mut makers, kind)?;
        Ok(Kind { makers })
    }

    /// An equal type.
    pub(crate) fn copy(&self) -> Result<Kind, AllocError> {
        let makers = self.makers.clone()?;
        Ok(Kind { makers })
    }

    /// The type of lists of such values. The one error is want of memory.
    pub(crate) fn listed(self) -> Result<Kind, AllocError> {
        let mut makers = self.makers;
        makers.push(Maker::List)?;
        Ok(Kind { makers })
    }

    /// A reference to such.
    pub(crate) fn referred(self) -> Result<Kind, AllocError> {
        let mut makers = self.makers;
        makers.push(Maker::Ref)?;
        Ok(Kind { makers })
    }

    /// What the type is made of: a list's items, or what a reference leads to.
    pub(crate) fn inner(self) -> Kind {
        let mut makers = self.makers;
        let _ = makers.pop();
        Kind { makers }
    }

    /// Whether the two types are equal.
    pub(crate) fn is(&self, other: &Kind) -> bool {
        self.makers.as_slice() == other.makers.as_slice()
    }

    /// Whether it is `int`.
    pub(crate) fn is_number(&self) -> bool {
        self.makers.is_empty()
    }

    /// Whether it is a list, of whatever items.
    pub(crate) fn is_list(&self) -> bool {
        match self.makers.as_slice() {
            [.., Maker::List] => true,
            _ => false,
        }
    }

    /// Whether it is a reference, to whatever value.
    pub(crate) fn is_reference(&self) -> bool {
        match self.makers.as_slice() {
            [.., Maker::Ref] => true,
            _ => false,
        }
    }

    /// Whether it is a reference to values of the other type.
    pub(crate) fn is_reference_to(&self, other: &Kind) -> bool {
        match self.makers.as_slice() {
            [inner @ .., Maker::Ref] => inner == other.makers.as_slice(),
            _ => false,
        }
    }

    /// Whether a reference stands in it.
    pub(crate) fn has_reference(&self) -> bool {
        for maker in &self.makers {
            if *maker == Maker::Ref {
                return true;
            }
        }
        false
    }
}

impl fmt::Display for Kind {
    fn fmt<W: fmt::Write>(&self, f: &mut fmt::Formatter<W>) -> fmt::Result {
        for maker in self.makers.iter().rev() {
            match maker {
                Maker::List => f.write_str("[")?,
                Maker::Ref => f.write_str("ref ")?,
            }
        }
        f.write_str("int")?;
        for maker in &self.makers {
            if *maker == Maker::List {
                f.write_str("]")?;
            }
        }
        Ok(())
    }
}
