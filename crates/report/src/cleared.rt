// What is left of a text where a part of it finds no memory: nothing, since half of it may be written.

ghost use Rattle.std.specs.Prelude.{◌≡◌, [], OnErr, OnOk, string_bytes};

use std::alloc::AllocError;

/// What came of writing at the text's end. Where that found no memory, nothing is left of the text.
#[inline(always)]
pub fn or_no_text<T: Drop>(came: Result<T, AllocError>, text: &mut String) -> Result<T, AllocError>
    ensures told { result ≡ came }
    ensures text { OnOk result (text.new ≡ text.old) }
    ensures err { OnErr result (string_bytes text.new ≡ []) }
{
    if came.is_err() {
        text.clear();
    }
    came
}
