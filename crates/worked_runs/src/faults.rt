// A fault at every place of worked runs: each list that is the history of a row's run with one fault more is tried, and what main printed and how it
// ended must be the serial run's, and each fault must have its cause in the log. Of the first row the orders of its deliveries are tried too.

mod causes;
mod compared;
mod fault_row;
mod orders;
mod trial;

use crate::faults::fault_row::{Read, Reading, Row};
use crate::faults::orders::try_orders;
use crate::faults::trial::{Tally, try_row};
use std::rt::Files;
use std::{fs, io};

fn tell<R: Print>(rt: &R, name: &str, tally: &Tally) -> io::Result<()> {
    let (lists, serial) = (tally.lists, tally.serial);
    let (died, lost, used) = (tally.owner_died, tally.put_lost, tally.retries_used);
    let (open, killed, stopped) = (tally.open, tally.killed, tally.stopped);
    let differ = tally.differ;
    print!(rt; "{name}: {lists} lists, {serial} as serial, {died} OwnerDied, {lost} PutLost, ")?;
    println!(rt;
        "{used} RetriesUsed, {open} open, {killed} main killed, {stopped} stopped, {differ} differ"
    )
}

/// Tries a row, tells what came of it, and says whether all is as it is promised.
fn try_one<R: Print + AllocGlobal>(rt: &R, row: &Row, tells: bool) -> io::Result<bool> {
    let name = row.name.as_str();
    let Some(tally) = try_row(rt, row, tells)? else {
        println!(rt; "{name}: no script with events")?;
        return Ok(false);
    };
    tell(rt, name, &tally)?;
    Ok(tally.differ == 0)
}

/// Tries the row, and the orders of its deliveries where it is the first.
fn try_with_orders<R: Print + AllocGlobal>(rt: &R, row: &Row, tells: bool) -> io::Result<bool> {
    let good = try_one(rt, row, tells)?;
    if row.name.as_str() == "row 1" {
        return Ok(try_orders(rt, row)? && good);
    }
    Ok(good)
}

/// Tries the rows of the file, each of whose lists is told with its report where that is asked for, and says whether all is as it is promised.
pub fn try_file<R: Files + Print + AllocGlobal>(
    rt: &R,
    path: &str,
    tells: bool,
) -> io::Result<bool> {
    let text = fs::read_to_string(rt, path)?;
    let mut reading = Reading::new(rt.alloc());
    let mut good = true;
    for line in text.as_str().lines() {
        match reading.read(rt.alloc(), line)? {
            Read::Whole(row) => {
                if !try_with_orders(rt, &row, tells)? {
                    good = false;
                }
            }
            Read::GoesOn => {}
            Read::BadLine => {
                println!(rt; "{path}: no line of a row: {line}")?;
                good = false;
            }
        }
    }
    match reading.last() {
        Some(row) => Ok(try_with_orders(rt, &row, tells)? && good),
        None => Ok(good),
    }
}
