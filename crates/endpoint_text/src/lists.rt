// Objects in a row, and which attempts are among others.

ghost use Rattle.std.specs.Prelude.{◌≡◌, ◌≤◌, ◌++◌, OnOk, length, string_bytes};
ghost use Rattle.std.specs.List.{flat_map};
ghost use Rattle.endpoint_text.specs.Lists.{cut_row, ids_text, is_one_of, more_text, next_text, row_text};

use ids::{AttemptId, ObjectId};
use log_words::Contents;
use std::alloc::AllocError;

#[tactic(auto, unfolding(crate::specs::Lists::next_text))]
fn write_next(text: &mut String, object: ObjectId) -> Result<(), AllocError>
    ensures { OnOk result (string_bytes text.new ≡ string_bytes text.old ++ next_text object) }
{
    write!(text, ", {object}")
}

fn write_others(text: &mut String, objects: &[ObjectId]) -> Result<(), AllocError>
    ensures { OnOk result (string_bytes text.new ≡ string_bytes text.old ++ flat_map next_text objects.now) }
{
    for object in objects {
        write_next(text, *object)?;
    }
    Ok(())
}

/// Writes the objects, such as `o1.1, o1.2`.
fn write_row(text: &mut String, objects: &[ObjectId]) -> Result<(), AllocError>
    ensures { OnOk result (string_bytes text.new ≡ string_bytes text.old ++ row_text objects.now) }
{
    let [first, others @ ..] = objects else {
        return Ok(());
    };
    write!(text, "{first}")?;
    write_others(text, others)
}

#[tactic(auto, unfolding(crate::specs::Lists::more_text))]
fn write_more(text: &mut String, count: usize) -> Result<(), AllocError>
    ensures { OnOk result (string_bytes text.new ≡ string_bytes text.old ++ more_text count) }
{
    write!(text, " and {count} more")
}

/// Writes the first three, and how many follow.
fn write_cut_row(text: &mut String, objects: &[ObjectId]) -> Result<(), AllocError>
    requires { 3 ≤ length objects.now }
    ensures { OnOk result (string_bytes text.new ≡ string_bytes text.old ++ cut_row objects.now) }
{
    write_row(text, &objects[..3])?;
    write_more(text, objects.len() - 3)
}

/// Writes the objects; of more than 8 the first three, unless all are wanted.
pub fn write_ids(
    text: &mut String,
    contents: Contents,
    objects: &[ObjectId],
) -> Result<(), AllocError>
    ensures { OnOk result (string_bytes text.new ≡ string_bytes text.old ++ ids_text contents objects.now) }
{
    match contents {
        Contents::Whole => write_row(text, objects),
        Contents::Cut => {
            if objects.len() > 8 {
                return write_cut_row(text, objects);
            }
            write_row(text, objects)
        }
    }
}

/// Whether the attempt is one of them.
pub fn is_one_of(attempts: &[AttemptId], attempt: AttemptId) -> bool
    ensures { result ≡ is_one_of attempts.now attempt }
{
    attempts.iter().any(|a| a.is(attempt))
}
