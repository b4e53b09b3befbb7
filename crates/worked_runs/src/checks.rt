// What no case shows: calls of the libraries, each function of which says what came otherwise than it must.

mod births;
mod failed;
mod files;
mod gates;
mod id_orders;
mod listed_ids;
mod lists;
mod readers;
mod reasons;
mod reports;
mod scripts;
mod steps;

use crate::checks::births::only_marked_references_are_dereferenced;
use crate::checks::failed::Checked;
use crate::checks::files::files_and_plans_are_read_and_written;
use crate::checks::gates::two_jobs_run_at_once;
use crate::checks::id_orders::ids_are_ordered_by_their_fields;
use crate::checks::listed_ids::ids_come_in_order_each_once;
use crate::checks::lists::items_are_kept_in_order;
use crate::checks::readers::a_failed_read_is_no_script;
use crate::checks::reasons::nothing_is_told_of_other_places;
use crate::checks::reports::each_entry_gives_its_lines;
use crate::checks::steps::a_run_by_claim_commit_and_step;
use std::io;
use std::rt::Clock;
use std::sync::Wait;
use std::thread::Threads;

/// Tells a check that fails by its file, and says whether it holds.
fn holds<R: Print>(rt: &R, name: &str, done: Checked) -> io::Result<bool> {
    match done {
        Ok(()) => Ok(true),
        Err(failed) => {
            let words = failed.0;
            println!(rt; "src/checks/{name}.rt: not as it must be: {words}")?;
            Ok(false)
        }
    }
}

/// Does each check once, tells those that fail and how many there are, and says whether all hold.
pub fn try_all<R: Print + AllocGlobal + Threads + Wait + Clock + Sync>(rt: &R) -> io::Result<bool> {
    let alloc = rt.alloc();
    let mut checks = 0u64;
    let mut differ = 0u64;
    for (name, done) in [
        ("births", only_marked_references_are_dereferenced(alloc)),
        ("files", files_and_plans_are_read_and_written(alloc)),
        ("gates", two_jobs_run_at_once(rt)),
        ("id_orders", ids_are_ordered_by_their_fields()),
        ("listed_ids", ids_come_in_order_each_once(alloc)),
        ("lists", items_are_kept_in_order(alloc)),
        ("readers", a_failed_read_is_no_script(alloc)),
        ("reasons", nothing_is_told_of_other_places(alloc)),
        ("reports", each_entry_gives_its_lines(alloc)),
        ("steps", a_run_by_claim_commit_and_step(rt)),
    ] {
        checks = checks.saturating_add(1);
        if !holds(rt, name, done)? {
            differ = differ.saturating_add(1);
        }
    }
    println!(rt; "{checks} checks, {differ} differ")?;
    Ok(differ == 0)
}
