// What is said of a run.

ghost use Rattle.std.specs.Prelude.{◌≡◌, IfOk, string_bytes};
ghost use Rattle.run_heads.specs.Heads.{cluster_text, head_text, script_text, with_head};

use event_files::behind;
use sha2::{Digest, Sha256};
use std::alloc::{AllocError, Global};

/// The cluster on which a run begins, as the words of the command line that ask for it: `--nodes 2 --slots 1`.
pub fn cluster_words(alloc: Global, nodes: u8, slots: u8) -> Result<String, AllocError>
    ensures { IfOk result (λ text. string_bytes text ≡ cluster_text nodes slots) }
{
    format!(in alloc; "--nodes {nodes} --slots {slots}")
}

/// The SHA-256 sum of a script's text, in small hexadecimal digits, behind the sum's name.
pub fn script_words(alloc: Global, script: &[u8]) -> Result<String, AllocError>
    ensures { IfOk result (λ text. string_bytes text ≡ script_text script.now) }
{
    let sum = Sha256::digest(script);
    let digits = hex::encode(alloc, sum.as_slice())?;
    format!(in alloc; "sha256 {digits}")
}

/// The comment lines that say on which cluster a run begins, on how many threads it is run, and which text its script has, with the words for the first
/// and the last that `cluster_words` and `script_words` give.
pub fn head_text(
    alloc: Global,
    cluster: &str,
    threads: u8,
    script: &str,
) -> Result<String, AllocError>
    ensures { IfOk result (λ text. string_bytes text ≡ head_text cluster.now threads script.now) }
{
    format!(in alloc; "# cluster: {cluster}\n# threads: {threads}\n# script: {script}\n")
}

/// A history with these lines behind its first. What is no file of format 2 stays as it is.
pub fn with_head(alloc: Global, head: &str, history: &[u8]) -> Result<Vec<u8>, AllocError>
    ensures { IfOk result (λ all. all.items ≡ with_head head.now history.now) }
{
    let mut all = Vec::new(alloc);
    match behind(b"raysim 2\n", history) {
        Some(rest) => {
            all.extend_from_slice(b"raysim 2\n")?;
            all.extend_from_slice(head.as_bytes())?;
            all.extend_from_slice(rest)?;
            Ok(all)
        }
        None => {
            all.extend_from_slice(history)?;
            Ok(all)
        }
    }
}

/// A history with the lines that say of which run it is: of this script, which began on so many nodes with so many slots each, on so many threads.
/// What is no file of format 2 stays as it is.
pub fn headed(
    alloc: Global,
    nodes: u8,
    slots: u8,
    threads: u8,
    script: &[u8],
    history: &[u8],
) -> Result<Vec<u8>, AllocError>
    ensures { IfOk result (λ all. all.items ≡ with_head (head_text (cluster_text nodes slots) threads (script_text script.now)) history.now) }
{
    let cluster = cluster_words(alloc, nodes, slots)?;
    let sum = script_words(alloc, script)?;
    let head = head_text(alloc, cluster.as_str(), threads, sum.as_str())?;
    let all = with_head(alloc, head.as_str(), history)?;
    Ok(all)
}
