// A run as a file of HTML: the head, one line of JSON with all that happened, and the tail.

ghost use Rattle.std.specs.Prelude.{◌≡◌, IfOk};
ghost use Rattle.page_text.specs.Text.{page_text};

use crate::data::data_text;
use crate::escaped::write_escaped;
use crate::frame::{HEAD, TAIL};
use log_entries::Entry;
use log_words::Contents;
use protocol_data::ClusterState;
use std::alloc::{AllocError, Global};

/// A run as a file of HTML that stands alone (docs/pages.md): the fixed head, the run as one line of JSON, and the fixed tail. The JSON has the
/// script's text, the nodes and slots with which the cluster began, the log in words with the messages that each event sent, as `message_text` has
/// it, the report, and the state behind the last event, as `state_text` has it. In it `<` is written `\u003c`, so that nothing in it ends the
/// element in which it stands. `sent` is how many messages had been sent behind each event.
pub fn page_text(
    alloc: Global,
    contents: Contents,
    script: &str,
    nodes: u8,
    slots: u8,
    log: &[Entry],
    sent: &[usize],
    whole: &ClusterState,
) -> Result<Vec<u8>, AllocError>
    ensures { IfOk result (λ page. page.items ≡ page_text contents script.now nodes slots log.now sent.now whole.now) }
{
    let text = data_text(alloc, contents, script, nodes, slots, log, sent, whole)?;
    let mut page = Vec::new(alloc);
    page.extend_from_slice(HEAD.as_bytes())?;
    write_escaped(&mut page, text.as_bytes())?;
    page.extend_from_slice(TAIL.as_bytes())?;
    Ok(page)
}
