// Bytes taken one by one from a reader, of which some may have been read ahead.

ghost use Rattle.std.specs.Prelude.{◌≡◌, ◌<◌, ◌++◌, [], reverse, true, vec_len, IfOk, IfErr, OnOk};
ghost use Rattle.event_reading.specs.Known.{IfKnown, IsBegun, IsHeaderTaken, IsNextByte, IsReadAhead, IsReadRefusal, left_of};

use raysim_streams::{CommandRefusal, Source};
use std::alloc::{AllocError, Global};

/// The first line of a file of format 2.
const HEADER: [u8; 9] = *b"raysim 2\n";

/// Reads some bytes where none were read ahead, and says whether there are any.
fn read_ahead<R: Source>(reader: &mut R, ahead: &mut Vec<u8>) -> Result<bool, CommandRefusal>
    requires { ahead.old.items ≡ [] }
    ensures ahead { IfOk result (λ more. IfKnown (R.left reader.old) (left_of ahead.new.items (R.left reader.new)) (IsReadAhead more)) }
    ensures some { IfOk result (λ more. more ≡ true → 0 < vec_len ahead.new) }
    ensures refused { IfErr result (IsReadRefusal (R.failures reader.old, R.failures reader.new)) }
    ensures unfailed { OnOk result (R.failures reader.new ≡ R.failures reader.old) }
{
    let mut chunk = [0u8; 4096];
    let n = reader.read_some(&mut chunk)?;
    if n == 0 {
        return Ok(false);
    }
    let part = &mut chunk[..n];
    part.reverse();
    ahead.extend_from_slice(part)?;
    Ok(true)
}

/// The next byte, if there is one. Of the bytes that were read ahead the next one stands last.
pub fn next_byte<R: Source>(
    reader: &mut R,
    ahead: &mut Vec<u8>,
) -> Result<Option<u8>, CommandRefusal>
    ensures taken { IfOk result (λ byte. IfKnown (left_of ahead.old.items (R.left reader.old)) (left_of ahead.new.items (R.left reader.new))
        (IsNextByte byte)) }
    ensures refused { IfErr result (IsReadRefusal (R.failures reader.old, R.failures reader.new)) }
    ensures unfailed { OnOk result (R.failures reader.new ≡ R.failures reader.old) }
{
    if let Some(byte) = ahead.pop() {
        return Ok(Some(byte));
    }
    if !read_ahead(reader, ahead)? {
        return Ok(None);
    }
    Ok(ahead.pop())
}

/// Takes as many bytes as the first line of format 2 has, or as there are.
fn begin<R: Source>(
    alloc: Global,
    reader: &mut R,
    ahead: &mut Vec<u8>,
) -> Result<Vec<u8>, CommandRefusal>
    ensures begun { IfOk result (λ front. IfKnown (left_of ahead.old.items (R.left reader.old)) (left_of ahead.new.items (R.left reader.new))
        (IsBegun front.items)) }
    ensures refused { IfErr result (IsReadRefusal (R.failures reader.old, R.failures reader.new)) }
    ensures unfailed { OnOk result (R.failures reader.new ≡ R.failures reader.old) }
{
    let mut front = Vec::new(alloc);
    while front.len() < HEADER.len() {
        let Some(byte) = next_byte(reader, ahead)? else {
            return Ok(front);
        };
        front.push(byte)?;
    }
    Ok(front)
}

/// Puts bytes back, so that they are what is left first.
fn put_back(ahead: &mut Vec<u8>, front: &[u8]) -> Result<(), AllocError>
    ensures { OnOk result (reverse ahead.new.items ≡ front.now ++ reverse ahead.old.items) }
{
    let mut at = front.len();
    while at > 0 {
        at -= 1;
        ahead.push(front[at])?;
    }
    Ok(())
}

/// Takes the first line of format 2, and says whether it stands there; else nothing is taken.
pub fn is_header_taken<R: Source>(
    alloc: Global,
    reader: &mut R,
    ahead: &mut Vec<u8>,
) -> Result<bool, CommandRefusal>
    ensures taken { IfOk result (λ taken. IfKnown (left_of ahead.old.items (R.left reader.old)) (left_of ahead.new.items (R.left reader.new))
        (IsHeaderTaken taken)) }
    ensures refused { IfErr result (IsReadRefusal (R.failures reader.old, R.failures reader.new)) }
    ensures unfailed { OnOk result (R.failures reader.new ≡ R.failures reader.old) }
{
    let front = begin(alloc, reader, ahead)?;
    if front.as_slice() == HEADER.as_slice() {
        return Ok(true);
    }
    put_back(ahead, front.as_slice())?;
    Ok(false)
}
