// Which objects nothing needs any more.

ghost use Rattle.std.specs.Prelude.{◌≡◌};
ghost use Rattle.contexts.specs.of_protocol.Numbered.{item_at};
ghost use Rattle.contexts.specs.of_protocol.Tables.{is_bearer_over};
ghost use Rattle.contexts.specs.of_protocol.Releases.{is_unneeded, is_unneeded_at};

use borrow::is_held;
use contexts::protocol_data::{Object, Objects, Worker};
use number_lists::object_at_number;

/// Whether the attempt that bore it is over.
pub fn is_bearer_over(worker: &Worker, object: &Object) -> bool
    ensures { result ≡ is_bearer_over worker.now object.now }
{
    match &worker.run {
        None => true,
        Some(run) => !(run.attempt.is(object.bearer) && !run.is_over),
    }
}

/// Whether it is settled or will have no content, and isn't held.
fn is_unneeded(object: &Object) -> bool
    ensures { result ≡ is_unneeded object.now }
{
    !object.is_released && (object.settled.is_some() || object.fault.is_some()) && !is_held(object)
}

/// So of the object of that serial, if there is one.
pub fn is_unneeded_at(objects: &Objects, serial: u64) -> bool
    ensures { result ≡ is_unneeded_at (item_at objects.now serial) }
{
    match object_at_number(objects, serial) {
        None => false,
        Some(object) => is_unneeded(object),
    }
}
