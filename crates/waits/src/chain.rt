// For what main waits, and what keeps that from coming, link by link.

ghost use Rattle.std.specs.Prelude.{◌≡◌, ◌++◌, ◌∷◌, [], IfOk, OnOk};
ghost use Rattle.waits.specs.Links.{chain, links, next_link, worker_links};

use crate::asks::{ask_link, attempt_link};
use crate::ends::{end_link, hold_link};
use crate::link::Link;
use crate::objects::{fetch_link, wait_link};
use crate::slots::slot_link;
use crate::stops::worker_link;
use ids::WorkerId;
use protocol_data::ClusterState;
use std::alloc::{AllocError, Global};

/// A worker has three links at most before the next one's, and a run 1,024 workers.
const MOST_LINKS: usize = 4096;

/// What keeps that from coming for which the link waits; none behind the last.
fn next_link(whole: &ClusterState, link: &Link) -> Option<Link>
    ensures { result ≡ next_link whole.now link.now }
{
    match link {
        Link::WaitsFor(worker, _, object) => Some(wait_link(whole, *worker, *object)),
        Link::FetchesFor(worker, _, object, node) => {
            Some(fetch_link(whole, *worker, *object, *node))
        }
        Link::AskedFor(attempt, number, node) => Some(ask_link(whole, *attempt, *number, *node)),
        Link::RunsAt(attempt, worker, node) => Some(attempt_link(whole, *attempt, *worker, *node)),
        Link::HasStopped(worker, attempt) => Some(end_link(whole, *worker, *attempt)),
        Link::HoldsBack(worker, holder, object) => {
            Some(hold_link(whole, *worker, *holder, *object))
        }
        Link::LacksSlot(worker, node) => Some(slot_link(whole, *worker, *node)),
        _ => None,
    }
}

/// Adds the link and those behind it, so many at most.
#[tactic(auto, using(crate::proofs::Chains::none_more, crate::proofs::Chains::no_more))]
fn add_links(
    links: &mut Vec<Link>,
    whole: &ClusterState,
    link: Option<Link>,
    most: usize,
) -> Result<(), AllocError>
    ensures { OnOk result (links.new.items ≡ links.old.items ++ chain whole.now most link) }
{
    if most == 0 {
        return Ok(());
    }
    let Some(link) = link else {
        return Ok(());
    };
    links.push(link)?;
    add_links(links, whole, next_link(whole, &link), most - 1)?;
    Ok(())
}

/// For what main waits, and what keeps that from coming, link by link. The last one names the event that would let it go on, or says that
/// there is none. It is a function of the run's tables and messages, and changes nothing.
#[tactic(auto, unfolding(crate::specs::Links::links))]
pub fn links(alloc: Global, whole: &ClusterState) -> Result<Vec<Link>, AllocError>
    ensures { IfOk result (λ found. found.items ≡ links whole.now) }
{
    let mut found = Vec::new(alloc);
    let first = worker_link(whole, WorkerId(1));
    add_links(&mut found, whole, Some(first), MOST_LINKS)?;
    Ok(found)
}

/// For what the worker's attempt waits, and what keeps that from coming, link by link, as `links` has it of main.
#[tactic(auto, unfolding(crate::specs::Links::worker_links))]
pub fn worker_links(
    alloc: Global,
    whole: &ClusterState,
    worker: WorkerId,
) -> Result<Vec<Link>, AllocError>
    ensures { IfOk result (λ found. found.items ≡ worker_links whole.now worker) }
{
    let mut found = Vec::new(alloc);
    let first = worker_link(whole, worker);
    add_links(&mut found, whole, Some(first), MOST_LINKS)?;
    Ok(found)
}
