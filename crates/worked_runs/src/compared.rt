// What a case wants beside what came of it.

use crate::case::Outcome;
use std::io;

/// Line `place` of a text, counted from 0.
fn line_at(text: &str, place: usize) -> Option<&str> {
    let mut at = 0usize;
    for line in text.split('\n') {
        if at == place {
            return Some(line);
        }
        at = at.saturating_add(1);
    }
    None
}

/// How many lines two texts begin with in common.
fn common_lines(wanted: &str, got: &str) -> usize {
    let mut common = 0usize;
    for (a, b) in wanted.split('\n').zip(got.split('\n')) {
        if a != b {
            return common;
        }
        common = common.saturating_add(1);
    }
    common
}

fn tell<R: Print>(rt: &R, what: &str, wanted: &str, got: &str) -> io::Result<()> {
    println!(rt; "  {what}")?;
    println!(rt; "    expected: {wanted}")?;
    println!(rt; "    got:      {got}")
}

fn tell_line<R: Print>(rt: &R, wanted: &str, got: &str) -> io::Result<()> {
    let place = common_lines(wanted, got);
    let wanted = line_at(wanted, place).unwrap_or("nothing more");
    let got = line_at(got, place).unwrap_or("nothing more");
    let number = place.saturating_add(1);
    println!(rt; "  line {number}")?;
    println!(rt; "    expected: {wanted}")?;
    println!(rt; "    got:      {got}")
}

/// Whether text, refusal and status are the same.
pub fn are_same(wanted: &Outcome, got: &Outcome) -> bool {
    wanted.written.as_str() == got.written.as_str()
        && wanted.refusal.as_str() == got.refusal.as_str()
        && wanted.status == got.status
}

/// Prints where they differ: the first line, the refusal, the status.
pub fn tell_difference<R: Print>(rt: &R, wanted: &Outcome, got: &Outcome) -> io::Result<()> {
    if wanted.written.as_str() != got.written.as_str() {
        tell_line(rt, wanted.written.as_str(), got.written.as_str())?;
    }
    if wanted.refusal.as_str() != got.refusal.as_str() {
        let (a, b) = (wanted.refusal.as_str(), got.refusal.as_str());
        tell(rt, "refusal", a, b)?;
    }
    if wanted.status != got.status {
        let (a, b) = (wanted.status, got.status);
        println!(rt; "  status: expected {a}, got {b}")?;
    }
    Ok(())
}
