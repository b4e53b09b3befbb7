// In which lines of a text something is said, counted from 1.

ghost use Rattle.std.specs.Prelude.{◌≡◌, ◌+◌, ◌++◌, ◌<◌, ◌^◌, IfOk, OnOk};
ghost use Rattle.event_files.specs.Numbering.{line_numbers, noted, number_behind};

use sequence::Seq;
use std::alloc::{AllocError, Global};

/// Notes the number, where a line that says something begins with the byte.
fn note(numbers: &mut Seq<usize>, number: usize, begins: bool, byte: u8) -> Result<(), AllocError>
    ensures { OnOk result (numbers.new ≡ numbers.old ++ noted number begins byte) }
{
    if !begins || byte == b'\n' || byte == b'#' {
        return Ok(());
    }
    numbers.push(number)
}

fn number_behind(number: usize, byte: u8) -> usize
    requires { number + 1 < 2 ^ 64 }
    ensures { result ≡ number_behind number byte }
{
    if byte == b'\n' {
        return number + 1;
    }
    number
}

/// The numbers of the lines of an event file, or of a plan, that say something: lines are counted from 1, those that are passed over too. There
/// is one for each line that `parse_events` answers, in their order; of a file of format 2 there is one more, that of its first line.
pub fn line_numbers(alloc: Global, text: &[u8]) -> Result<Seq<usize>, AllocError>
    ensures { IfOk result (λ numbers. numbers ≡ line_numbers text.now) }
{
    let mut numbers = Seq::new(alloc);
    let mut number = 1;
    let mut begins = true;
    for byte in text {
        note(&mut numbers, number, begins, *byte)?;
        number = number_behind(number, *byte);
        begins = *byte == b'\n';
    }
    Ok(numbers)
}
