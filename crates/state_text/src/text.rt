// What is alive in a run behind its last event: its nodes, workers and objects.

ghost use Rattle.std.specs.Prelude.{◌≡◌, ◌++◌, IfOk, OnOk, string_bytes};
ghost use Rattle.log_words.specs.Index.{IsIndexOf};
ghost use Rattle.state_text.specs.Text.{event_count, head_text, state_text};

use crate::nodes::write_nodes;
use crate::objects::write_all_objects;
use crate::workers::write_workers;
use log_entries::Entry;
use log_words::BirthIndex;
use protocol_data::ClusterState;
use std::alloc::{AllocError, Global};

/// How many events a log has, refused ones too.
pub fn event_count(log: &[Entry]) -> usize
    ensures { result ≡ event_count log.now }
{
    let mut count = 0;
    for entry in log {
        if let Entry::In { .. } = entry {
            count += 1;
        }
    }
    count
}

/// Writes behind which event the run is, of so many.
#[tactic(auto, unfolding(crate::specs::Text::head_text))]
fn write_head(text: &mut String, log: &[Entry], all: usize) -> Result<(), AllocError>
    ensures { OnOk result (string_bytes text.new ≡ string_bytes text.old ++ head_text log.now all) }
{
    let count = event_count(log);
    write!(text, "behind event {count} of {all}\n")
}

fn write_state(
    alloc: Global,
    text: &mut String,
    index: &BirthIndex,
    log: &[Entry],
    whole: &ClusterState,
    all: usize,
) -> Result<(), AllocError>
    ensures { IsIndexOf index.now log.now → OnOk result (string_bytes text.new ≡ string_bytes text.old ++ state_text log.now whole.now all) }
{
    write_head(text, log, all)?;
    write_nodes(text, index, log, whole)?;
    write_workers(text, index, log, whole)?;
    write_all_objects(alloc, text, index, log, whole)?;
    Ok(())
}

/// What is alive in a run with this log and these tables: behind which event it is, of so many, then lines for each node, each worker, and each
/// object of each owner in order of ids; see docs/state.md for what each line says. Every line begins with what it speaks of.
pub fn state_text(
    alloc: Global,
    log: &[Entry],
    whole: &ClusterState,
    all: usize,
) -> Result<String, AllocError>
    ensures { IfOk result (λ text. string_bytes text ≡ state_text log.now whole.now all) }
{
    let mut text = String::new(alloc);
    let index = BirthIndex::of(alloc, log)?;
    let written = write_state(alloc, &mut text, &index, log, whole, all);
    drop(index);
    written?;
    Ok(text)
}
