// A birth that contracts see as the definitions' birth. Whoever has a birth shares it: a copy of it copies neither name nor arguments.

ghost use Rattle.std.specs.Prelude.{◌≡◌, IfOk};
ghost use Rattle.task_spec.specs.Births.{birth_of};

use std::alloc::{AllocError, Global};
use std::marker::Model;
use std::sync::Arc;
use task_spec::Birth;

/// What makes an object, which contracts see as its birth. Copies share it.
#[derive(Drop)]
pub struct SharedBirth {
    /// The birth, which copies share.
    pub inner: Arc<Birth>,
}

impl Model for SharedBirth {
    ghost use Rattle.task_spec.specs.of_meaning.Values.{Birth};
    ghost use Rattle.held.specs.Codes.{birth_code};
    ghost use Rattle.std.specs.Arc.{arc_value};
    ghost use Rattle.task_spec.specs.Births.{birth_of};

    ghost Value = { Birth };

    ghost coded = { birth_code };

    ghost view = { λ b. birth_of (arc_value b.inner) };
}

impl SharedBirth {
    /// The birth. An error is want of memory.
    pub fn new(alloc: Global, birth: Birth) -> Result<SharedBirth, AllocError>
        ensures { IfOk result (λ o. o ≡ birth_of birth) }
    {
        let inner = Arc::new(alloc, birth)?;
        Ok(SharedBirth { inner })
    }

    /// The same birth, shared. An error is want of memory.
    pub fn copy(&self, alloc: Global) -> Result<SharedBirth, AllocError>
        ensures { IfOk result (λ b. b ≡ self.now) }
    {
        let inner = Arc::try_clone(&self.inner)?;
        Ok(SharedBirth { inner })
    }
}
