// Why main ended as it did, or for what it waits.

ghost use Rattle.std.specs.Prelude.{◌≡◌, ◌++◌, IfOk, OnOk, codes, length, option_copied, string_bytes};
ghost use Rattle.std.specs.Option.{option_map};
ghost use Rattle.values.specs.Values.{content_of};
ghost use Rattle.event_log.specs.Entries.{main_attempt};
ghost use Rattle.log_words.specs.Index.{IsIndexOf};
ghost use Rattle.waits.specs.Links.{links};
ghost use Rattle.why_text.specs.Text.{lack_of};
ghost use Rattle.main_text.specs.declared.happenings.Happening.TheVariants.{Stops};
ghost use Rattle.main_text.specs.Happenings.{when_last};
ghost use Rattle.main_text.specs.Links.{links_text};
ghost use Rattle.main_text.specs.Traps.{traps_text};
ghost use Rattle.main_text.specs.Text.{end_text, ended_text, main_text, open_text, source_text, unended_text};

use crate::happenings::{Happening, write_when_last};
use crate::links::write_links;
use crate::traps::write_traps;
use held::SharedContent;
use ids::{AttemptId, ObjectId, WorkerId};
use log_entries::Entry;
use log_words::{BirthIndex, Contents, write_content};
use protocol_data::ClusterState;
use report_text::main_end::main_end;
use std::alloc::{AllocError, Global};
use values::Content;
use waits::links;
use why_text::{Lack, main_lack, write_main_lack};

fn main_attempt() -> AttemptId
    ensures { result ≡ main_attempt }
{
    let object = ObjectId {
        owner: WorkerId(1),
        serial: 0,
    };
    AttemptId { object, number: 0 }
}

/// Writes when main ended.
fn write_main_when(
    text: &mut String,
    log: &[Entry],
    lines: &[usize],
    whole: &ClusterState,
) -> Result<(), AllocError>
    ensures { OnOk result
        (string_bytes text.new ≡ string_bytes text.old ++ when_last whole.now.jobs lines.now log.now (Stops main_attempt)) }
{
    let happening = Happening::Stops(main_attempt());
    write_when_last(text, whole, lines, log, &happening)
}

/// Writes how main ended.
#[tactic(auto, unfolding(crate::specs::Text::ended_text))]
fn write_ended(
    text: &mut String,
    contents: Contents,
    log: &[Entry],
    lines: &[usize],
    whole: &ClusterState,
    content: &Content,
) -> Result<(), AllocError>
    ensures { OnOk result
        (string_bytes text.new ≡ string_bytes text.old ++ ended_text contents log.now lines.now whole.now (content_of content.now)) }
{
    text.push_str("Main ended")?;
    write_main_when(text, log, lines, whole)?;
    text.push_str(": ")?;
    write_content(text, contents, content)?;
    text.push_str(".\n")?;
    Ok(())
}

fn write_main_traps(
    text: &mut String,
    contents: Contents,
    index: &BirthIndex,
    log: &[Entry],
    lines: &[usize],
    whole: &ClusterState,
) -> Result<(), AllocError>
    requires { IsIndexOf index.now log.now }
    ensures { OnOk result (string_bytes text.new
        ≡ string_bytes text.old ++ traps_text contents whole.now.jobs log.now lines.now (length log.now) main_attempt) }
{
    let most = log.len();
    let attempt = main_attempt();
    write_traps(text, contents, index, whole, log, lines, most, attempt)
}

/// Writes an empty line, and where the trap with which main ended comes from.
fn write_traps_below(
    text: &mut String,
    contents: Contents,
    index: &BirthIndex,
    log: &[Entry],
    lines: &[usize],
    whole: &ClusterState,
) -> Result<(), AllocError>
    requires { IsIndexOf index.now log.now }
    ensures { OnOk result (string_bytes text.new ≡ string_bytes text.old ++ codes "\n"
        ++ traps_text contents whole.now.jobs log.now lines.now (length log.now) main_attempt) }
{
    text.push_str("\n")?;
    write_main_traps(text, contents, index, log, lines, whole)
}

/// Writes where the trap with which main ended comes from.
fn write_source(
    alloc: Global,
    text: &mut String,
    contents: Contents,
    log: &[Entry],
    lines: &[usize],
    whole: &ClusterState,
    content: &Content,
) -> Result<(), AllocError>
    ensures { OnOk result
        (string_bytes text.new ≡ string_bytes text.old ++ source_text contents log.now lines.now whole.now (content_of content.now)) }
{
    match content {
        Content::Value(_) => Ok(()),
        Content::Trap(_) => {
            let index = BirthIndex::of(alloc, log)?;
            let written = write_traps_below(text, contents, &index, log, lines, whole);
            drop(index);
            written
        }
    }
}

fn write_links_by(
    alloc: Global,
    text: &mut String,
    contents: Contents,
    index: &BirthIndex,
    log: &[Entry],
    lines: &[usize],
    whole: &ClusterState,
) -> Result<(), AllocError>
    requires { IsIndexOf index.now log.now }
    ensures { OnOk result
        (string_bytes text.new ≡ string_bytes text.old ++ links_text contents log.now lines.now whole.now (links whole.now)) }
{
    let links = links(alloc, whole)?;
    let written = write_links(alloc, text, contents, index, log, lines, whole, &links);
    drop(links);
    written
}

fn write_all_links(
    alloc: Global,
    text: &mut String,
    contents: Contents,
    log: &[Entry],
    lines: &[usize],
    whole: &ClusterState,
) -> Result<(), AllocError>
    ensures { OnOk result
        (string_bytes text.new ≡ string_bytes text.old ++ links_text contents log.now lines.now whole.now (links whole.now)) }
{
    let index = BirthIndex::of(alloc, log)?;
    let written = write_links_by(alloc, text, contents, &index, log, lines, whole);
    drop(index);
    written
}

/// Writes for what main waits.
#[tactic(auto, unfolding(crate::specs::Text::open_text))]
fn write_open(
    alloc: Global,
    text: &mut String,
    contents: Contents,
    log: &[Entry],
    lines: &[usize],
    whole: &ClusterState,
) -> Result<(), AllocError>
    ensures { OnOk result (string_bytes text.new ≡ string_bytes text.old ++ open_text contents log.now lines.now whole.now) }
{
    text.push_str("Main is open.\n\n")?;
    write_all_links(alloc, text, contents, log, lines, whole)?;
    Ok(())
}

fn write_unended(
    alloc: Global,
    text: &mut String,
    contents: Contents,
    log: &[Entry],
    lines: &[usize],
    whole: &ClusterState,
    lack: Option<Lack>,
) -> Result<(), AllocError>
    ensures { OnOk result
        (string_bytes text.new ≡ string_bytes text.old ++ unended_text contents log.now lines.now whole.now (option_map lack_of lack)) }
{
    match lack {
        None => write_open(alloc, text, contents, log, lines, whole),
        Some(lack) => write_main_lack(alloc, text, contents, log, lines, lack),
    }
}

fn write_main_end(
    alloc: Global,
    text: &mut String,
    contents: Contents,
    log: &[Entry],
    lines: &[usize],
    whole: &ClusterState,
    end: Option<&SharedContent>,
) -> Result<(), AllocError>
    ensures { OnOk result
        (string_bytes text.new ≡ string_bytes text.old ++ end_text contents log.now lines.now whole.now (option_copied end.entry)) }
{
    let Some(content) = end else {
        return write_unended(alloc, text, contents, log, lines, whole, main_lack(log));
    };
    write_ended(text, contents, log, lines, whole, &content.inner)?;
    write_source(alloc, text, contents, log, lines, whole, &content.inner)
}

/// Why main ended as it did: with a value, when; with a trap, from which attempt's code that comes, through the gets on the way, and what such a
/// trap can come of; with a fault, what happened to each object on the way to its first cause. Or, where main is open, for what it waits, and
/// what keeps that from coming, from one attempt to the next; the last sentence names the event that would let it go on, as event files write
/// it, or says that none does. Each with its event and the line of the event file. `lines` are these lines, in the order of the events; an event
/// behind the last has none.
///
/// It is made of any log and any tables and messages, whether they are of one run or not.
#[tactic(auto, unfolding(crate::specs::Text::main_text))]
pub fn main_text(
    alloc: Global,
    contents: Contents,
    log: &[Entry],
    lines: &[usize],
    whole: &ClusterState,
) -> Result<String, AllocError>
    ensures { IfOk result (λ text. string_bytes text ≡ main_text contents log.now lines.now whole.now) }
{
    let mut text = String::new(alloc);
    write_main_end(alloc, &mut text, contents, log, lines, whole, main_end(log))?;
    Ok(text)
}
