// How values and contents are written, whole or with long lists cut.

ghost use Rattle.std.specs.Prelude.{◌≡◌, ◌++◌, [], OnErr, OnOk, string_bytes};
ghost use Rattle.std.specs.List.{flat_map};
ghost use Rattle.values.specs.Values.{content_of, value_of};
ghost use Rattle.log_words.specs.Contents.{content_text, contents_text, other_content, shown_text};

use cut_values::write_cut;
use held::{SharedContent, SmallList};
use report::{or_no_text, trap_name};
use std::alloc::AllocError;
use values::{Content, RunValue};

/// How the lists in values and contents are written.
#[derive(Clone, Copy, PartialEq, Eq, Debug)]
pub enum Contents {
    /// Of one with more than 8 items the first three, and how many follow, such as `[0, 37, 74, .. 1,997 items]`.
    Cut,
    /// With all their items, as a report has them.
    Whole,
}

/// Writes a value as reports do; where long lists are cut, with the first items and the number of all. An error is want of memory, and then
/// nothing is left of the text.
pub fn write_value(
    text: &mut String,
    contents: Contents,
    value: &RunValue,
) -> Result<(), AllocError>
    ensures done { OnOk result (string_bytes text.new ≡ string_bytes text.old ++ shown_text contents (value_of value.now)) }
    ensures err { OnErr result (string_bytes text.new ≡ []) }
{
    match contents {
        Contents::Cut => write_cut(text, value),
        Contents::Whole => report::write_value(text, value),
    }
}

/// Writes a content: a value, or `trap DivZero`. An error is want of memory, and then nothing is left of the text.
pub fn write_content(
    text: &mut String,
    contents: Contents,
    content: &Content,
) -> Result<(), AllocError>
    ensures done { OnOk result (string_bytes text.new ≡ string_bytes text.old ++ content_text contents (content_of content.now)) }
    ensures err { OnErr result (string_bytes text.new ≡ []) }
{
    match content {
        Content::Value(value) => write_value(text, contents, value),
        Content::Trap(trap) => {
            or_no_text(text.push_str("trap "), text)?;
            or_no_text(text.push_str(trap_name(*trap)), text)
        }
    }
}

/// Writes the contents behind the first.
fn write_other_contents(
    text: &mut String,
    contents: Contents,
    others: &[SharedContent],
) -> Result<(), AllocError>
    ensures { OnOk result (string_bytes text.new ≡ string_bytes text.old ++ flat_map (other_content contents) others.now) }
{
    for content in others {
        text.push_str(", ")?;
        write_content(text, contents, &content.inner)?;
    }
    Ok(())
}

/// Writes a content for each result of an attempt, such as `5, [1, 2]`. An error is want of memory, and then nothing is left of the text.
pub fn write_contents(
    text: &mut String,
    contents: Contents,
    results: &SmallList<SharedContent>,
) -> Result<(), AllocError>
    ensures done { OnOk result (string_bytes text.new ≡ string_bytes text.old ++ contents_text contents results.now) }
    ensures err { OnErr result (string_bytes text.new ≡ []) }
{
    let [first, others @ ..] = results.as_slice() else {
        return Ok(());
    };
    write_content(text, contents, &first.inner)?;
    or_no_text(write_other_contents(text, contents, others), text)
}
