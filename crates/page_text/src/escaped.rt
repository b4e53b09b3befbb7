// JSON that stands in a page.

ghost use Rattle.std.specs.Prelude.{◌≡◌, ◌++◌, OnOk};
ghost use Rattle.std.specs.List.{flat_map};
ghost use Rattle.page_text.specs.Escaped.{escaped};

use std::alloc::AllocError;

/// What stands for `<` in the strings of JSON.
const LESS: &str = "\\u003c";

fn write_byte(page: &mut Vec<u8>, byte: u8) -> Result<(), AllocError>
    ensures { OnOk result (page.new.items ≡ page.old.items ++ escaped byte) }
{
    if byte == b'<' {
        return page.extend_from_slice(LESS.as_bytes());
    }
    Ok(page.push(byte)?)
}

/// Writes JSON so that no `<` is in it. JSON has `<` in strings alone, and there the escape is the same character, so it says the same.
pub fn write_escaped(page: &mut Vec<u8>, text: &[u8]) -> Result<(), AllocError>
    ensures { OnOk result (page.new.items ≡ page.old.items ++ flat_map escaped text.now) }
{
    for byte in text {
        write_byte(page, *byte)?;
    }
    Ok(())
}
