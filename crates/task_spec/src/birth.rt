// What makes an object, a put or a call, and which of a call's arguments are dereferenced.

ghost use Rattle.std.specs.Prelude.{◌≡◌, ◌++◌, IfOk, OnOk, map};
ghost use Rattle.task_spec.specs.Births.{argument_of, birth_of};
ghost use Rattle.task_spec.specs.Dereferenced.{id_read, ids_read, dereferenced_in};

use small_list::SmallList;
use std::alloc::{AllocError, Global};
use std::sync::Arc;
use values::RunValue;
use values::ids::ObjectId;

/// An argument of a remote call.
#[derive(Drop)]
pub struct Argument {
    /// The value, where a reference is an id.
    pub value: RunValue,
    /// Whether it is a reference that the task's worker dereferences before the body.
    pub is_dereferenced: bool,
}

/// What makes an object: the value that was put, or the call that computes it.
#[derive(Drop)]
pub enum Birth {
    /// The value that was put.
    Put(RunValue),
    /// A remote call: its function, its arguments, the depth at which its body runs (main's is 0), how many new runs it
    /// allows after a failure of the system, and how many results it has beside the first.
    Task {
        function: Arc<String>,
        arguments: SmallList<Argument>,
        depth: u32,
        retries: u8,
        others: u8,
    },
}

impl Argument {
    /// An equal argument.
    pub fn copy(&self, alloc: Global) -> Result<Argument, AllocError>
        ensures { IfOk result (λ a. argument_of a ≡ argument_of self.now) }
    {
        let value = self.value.copy(alloc)?;
        Ok(Argument {
            value,
            is_dereferenced: self.is_dereferenced,
        })
    }
}

/// Equal arguments.
fn copy_arguments(alloc: Global, arguments: &[Argument]) -> Result<SmallList<Argument>, AllocError>
    ensures { IfOk result (λ c. map argument_of c ≡ map argument_of arguments.now) }
{
    let mut copies = SmallList::new(alloc);
    for argument in arguments {
        copies.push(argument.copy(alloc)?)?;
    }
    Ok(copies)
}

impl Birth {
    /// An equal birth.
    pub fn copy(&self, alloc: Global) -> Result<Birth, AllocError>
        ensures { IfOk result (λ b. birth_of b ≡ birth_of self.now) }
    {
        match self {
            Birth::Put(value) => Ok(Birth::Put(value.copy(alloc)?)),
            Birth::Task {
                function,
                arguments,
                depth,
                retries,
                others,
            } => {
                let function = Arc::try_clone(function)?;
                let arguments = copy_arguments(alloc, arguments.as_slice())?;
                Ok(Birth::Task {
                    function,
                    arguments,
                    depth: *depth,
                    retries: *retries,
                    others: *others,
                })
            }
        }
    }
}

/// Adds the id that the task's worker dereferences for an argument, where there is one.
fn add_dereferenced(argument: &Argument, found: &mut Vec<ObjectId>) -> Result<(), AllocError>
    ensures { OnOk result (found.new.items ≡ found.old.items ++ id_read (argument_of argument.now)) }
{
    if !argument.is_dereferenced {
        return Ok(());
    }
    match &argument.value {
        RunValue::Id(object) => Ok(found.push(*object)?),
        RunValue::Int(_) | RunValue::List(_) => Ok(()),
    }
}

/// The ids of the arguments that are dereferenced.
fn ids_of_marked(arguments: &[Argument], alloc: Global) -> Result<Vec<ObjectId>, AllocError>
    ensures { IfOk result (λ found. found.items ≡ ids_read (map argument_of arguments.now)) }
{
    let mut found = Vec::new(alloc);
    for argument in arguments {
        add_dereferenced(argument, &mut found)?;
    }
    Ok(found)
}

/// The ids that a task's worker dereferences before the body, in the order of the arguments; an id that stands in two
/// of them comes twice. A put value has none.
pub fn dereferenced(birth: &Birth, alloc: Global) -> Result<Vec<ObjectId>, AllocError>
    ensures { IfOk result (λ found. found.items ≡ dereferenced_in (birth_of birth.now)) }
{
    match birth {
        Birth::Put(_) => Ok(Vec::new(alloc)),
        Birth::Task { arguments, .. } => ids_of_marked(arguments.as_slice(), alloc),
    }
}
