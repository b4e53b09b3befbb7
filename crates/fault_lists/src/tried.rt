// What came of each list that was tried, counted by kinds of ends.

ghost use Rattle.std.specs.Prelude.{◌≡◌, ◌+◌, ◌*◌, ◌^◌, ◌≤◌, drop};
ghost use Rattle.fault_lists.specs.Tables.{all_attempts, count_of, first_of, has_kind, is_survived, most_attempts, most_from, same_fault, status_of_all};

use crate::ending::RunEnd;
use faulted_history::FaultList;
use values::FaultKind;

/// A list that was tried, how main ended, and how many attempts were begun, without main's.
#[derive(Clone, Copy, PartialEq, Eq, Debug)]
pub struct Tried {
    pub list: FaultList,
    /// How main ended.
    pub end: RunEnd,
    /// How many attempts were begun, without main's.
    pub attempts: usize,
}

/// How main can end, with a fault by its kind.
#[derive(Clone, Copy, PartialEq, Eq, Debug)]
pub enum EndKind {
    /// With what the serial run ends with.
    AsSerial,
    /// With a fault of that kind, whatever its object.
    Faulted(FaultKind),
    /// It didn't end, although its worker lives.
    Open,
    /// Its worker was killed before it ended.
    Killed,
    /// The run was stopped before an event more than it may have.
    Stopped,
}

fn is_same_fault(kind: FaultKind, other: FaultKind) -> bool
    ensures { result ≡ same_fault kind other }
{
    match (kind, other) {
        (FaultKind::OwnerDied, FaultKind::OwnerDied) => true,
        (FaultKind::PutLost, FaultKind::PutLost) => true,
        (FaultKind::RetriesUsed, FaultKind::RetriesUsed) => true,
        _ => false,
    }
}

/// Whether the end is of that kind, a fault whatever its object.
fn has_kind(kind: EndKind, end: RunEnd) -> bool
    ensures { result ≡ has_kind kind end }
{
    match (kind, end) {
        (EndKind::AsSerial, RunEnd::AsSerial) => true,
        (EndKind::Faulted(kind), RunEnd::Faulted(fault)) => is_same_fault(kind, fault.kind),
        (EndKind::Open, RunEnd::Open) => true,
        (EndKind::Killed, RunEnd::Killed) => true,
        (EndKind::Stopped, RunEnd::Stopped) => true,
        _ => false,
    }
}

/// In how many of the lists main ended so.
pub fn count_of(kind: EndKind, tried: &[Tried]) -> usize
    ensures { result ≡ count_of kind tried.now }
{
    let mut count = 0;
    for one in tried {
        if has_kind(kind, one.end) {
            count += 1;
        }
    }
    count
}

/// The first of the lists with which main ended so.
pub fn first_of(kind: EndKind, tried: &[Tried]) -> Option<Tried>
    ensures { result ≡ first_of kind tried.now }
{
    for one in tried {
        if has_kind(kind, one.end) {
            return Some(*one);
        }
    }
    None
}

/// How many attempts the list with the most of them had, 0 where none was tried.
pub fn most_attempts(tried: &[Tried]) -> usize
    ensures { result ≡ most_attempts tried.now }
{
    let mut most = 0;
    for one in tried {
        if most < one.attempts {
            most = one.attempts;
        }
    }
    most
}

/// How many attempts all the lists had together.
pub fn all_attempts(tried: &[Tried]) -> u128
    ensures { result ≡ all_attempts tried.now }
{
    let mut sum = 0u128;
    for one in tried {
        sum += one.attempts as u128;
    }
    sum
}

/// Whether main ended as the serial run does, or was itself what died.
fn is_survived(end: RunEnd) -> bool
    ensures { result ≡ is_survived end }
{
    match end {
        RunEnd::AsSerial => true,
        RunEnd::Killed => true,
        _ => false,
    }
}

/// 0 where no list gave main a fault, left it open while its worker lived, or was stopped; else 2.
pub fn status_of_all(tried: &[Tried]) -> u8
    ensures { result ≡ status_of_all tried.now }
{
    for one in tried {
        if !is_survived(one.end) {
            return 2;
        }
    }
    0
}
