// What an attempt printed, which contracts see as the definitions' values.

ghost use Rattle.std.specs.Prelude.{◌≡◌, ◌∷◌, ◌++◌, [], IfOk, OnOk, OnErr, length};

use crate::printed::Printed;
use std::alloc::{AllocError, Global};
use std::marker::Model;
use trail::Trail;
use values::RunValue;

/// Values in order, which contracts see as they are. Copies share them.
#[derive(Drop)]
pub struct Prints {
    /// The values, which copies share.
    pub inner: Trail<RunValue>,
}

impl Model for Prints {
    ghost use Rattle.std.specs.Prelude.{List, map};
    ghost use Rattle.std.specs.Coded.{codes};
    ghost use Rattle.task_spec.specs.of_meaning.Values.{Value as AnyValue};
    ghost use Rattle.held.specs.Codes.{value_code};
    ghost use Rattle.values.specs.Values.{value_of};

    ghost Value = { List AnyValue };

    ghost coded = { Prim.hlevel (codes, value_code) };

    ghost view = { λ p. map value_of p.inner };
}

impl Prints {
    /// None yet.
    pub fn new() -> Prints
        ensures { result ≡ [] }
    {
        Prints {
            inner: Trail::new(),
        }
    }

    /// How many values were printed.
    pub fn len(&self) -> usize
        ensures { result ≡ length self.now }
    {
        self.inner.len()
    }

    /// Adds a value at the end. After an error, which is want of memory, there are none.
    pub fn push(&mut self, alloc: Global, value: Printed) -> Result<(), AllocError>
        ensures ok { OnOk result (self.new ≡ self.old ++ value ∷ []) }
        ensures err { OnErr result (self.new ≡ []) }
    {
        self.inner.push(alloc, value.inner)
    }

    /// Equal values, the same in memory.
    pub fn copy(&self) -> Result<Prints, AllocError>
        ensures { IfOk result (λ p. p ≡ self.now) }
    {
        let inner = self.inner.copy()?;
        Ok(Prints { inner })
    }
}
