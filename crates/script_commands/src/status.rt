// The status of a command.

ghost use Rattle.std.specs.Prelude.{◌≡◌};
ghost use Rattle.script_commands.specs.Scripts.{exit_status};

use raysim_streams::CommandRefusal;

/// The status that the program ends with: the command's own, and 1 where it is refused.
pub fn exit_status(done: &Result<u8, CommandRefusal>) -> u8
    ensures { result ≡ exit_status done.now }
{
    match done {
        Ok(status) => *status,
        Err(_) => 1,
    }
}
