// What an attempt bore, which contracts see as births.

ghost use Rattle.std.specs.Prelude.{◌≡◌, ◌∷◌, ◌++◌, [], IfOk, OnOk, OnErr, length};

use crate::shared_birth::SharedBirth;
use std::alloc::{AllocError, Global};
use std::marker::Model;
use task_spec::Birth;
use trail::Trail;

/// Births in order, which contracts see as they are. Copies share them.
#[derive(Drop)]
pub struct Births {
    /// The births, which copies share.
    pub inner: Trail<Birth>,
}

impl Model for Births {
    ghost use Rattle.std.specs.Prelude.{List, map};
    ghost use Rattle.std.specs.Coded.{codes};
    ghost use Rattle.task_spec.specs.of_meaning.Values.{Birth};
    ghost use Rattle.held.specs.Codes.{birth_code};
    ghost use Rattle.task_spec.specs.Births.{birth_of};

    ghost Value = { List Birth };

    ghost coded = { Prim.hlevel (codes, birth_code) };

    ghost view = { λ b. map birth_of b.inner };
}

impl Births {
    /// None yet.
    pub fn new() -> Births
        ensures { result ≡ [] }
    {
        Births {
            inner: Trail::new(),
        }
    }

    /// How many births there are, an object that was put counted like a task.
    pub fn len(&self) -> usize
        ensures { result ≡ length self.now }
    {
        self.inner.len()
    }

    /// Adds a birth at the end, which stays shared. After an error, which is want of memory, there are none.
    pub fn push(&mut self, alloc: Global, birth: SharedBirth) -> Result<(), AllocError>
        ensures ok { OnOk result (self.new ≡ self.old ++ birth ∷ []) }
        ensures err { OnErr result (self.new ≡ []) }
    {
        self.inner.push_shared(alloc, birth.inner)
    }

    /// Equal births, the same in memory.
    pub fn copy(&self) -> Result<Births, AllocError>
        ensures { IfOk result (λ b. b ≡ self.now) }
    {
        let inner = self.inner.copy()?;
        Ok(Births { inner })
    }
}
