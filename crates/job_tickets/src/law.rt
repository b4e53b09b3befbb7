// What holds of tickets between any two steps, and what the steps tell.

ghost use Rattle.std.specs.Prelude.{Option};

use atomic_table::{Join, Split};
use crossbeam_utils::atomic::seq_cell::{Pass, RuledSeqCell};
use crossbeam_utils::rule::{Outcome, Protocol};
use std::collections::LinkedList;
use std::marker::{Brand, PhantomData};

/// Where a ticket stands among all, and for what it was given out.
pub struct Claim<J> {
    pub place: u64,
    pub of: J,
}

/// What a pass knows: the keeper all tickets, each with what it was given out for until it is handed back, and a ticket its claim. No value of it is made.
pub struct View<J> {
    pub keeps: bool,
    pub all: LinkedList<Option<J>>,
    pub claim: Option<Claim<J>>,
}

/// The rule: one pass knows all tickets, and each claim is one of them, of which no other pass has the same.
pub struct Issued<J> {
    of: PhantomData<J>,
}

impl<J> Protocol<[u64; 1], View<J>> for Issued<J> {
    ghost use Rattle.std.specs.Prelude.{[]};
    ghost use Rattle.job_tickets.specs.Tickets.{Kept, knower};

    ghost holds = { Kept };

    ghost first = { knower [] };
}

/// A type that stands for what is given out in a step.
pub trait Given<J> {
    ghost of: { Option J };
}

impl<J> Given<J> for Brand {
    ghost use Rattle.std.specs.Prelude.{None};

    ghost of = { None };
}

/// The keeper gives out what `B` stands for, and has its claim.
pub struct Gives<B> {
    of: PhantomData<B>,
}

impl<J, B: Given<J>> Outcome<[u64; 1], View<J>> for Gives<B> {
    ghost use Rattle.job_tickets.specs.Tickets.{Gave};

    ghost then = { Gave B.of };
}

/// The keeper compares a claim with all tickets, and it is one of them no more.
pub struct TakesBack;

impl<J> Outcome<[u64; 1], View<J>> for TakesBack {
    ghost use Rattle.job_tickets.specs.Tickets.{TookBack};

    ghost then = { TookBack };
}

/// A claim goes from one pass to another.
pub struct Hands;

impl<J> Split<View<J>> for Hands {
    ghost use Rattle.job_tickets.specs.Tickets.{claim_of, without_claim};

    ghost left = { without_claim };

    ghost right = { claim_of };
}

impl<J> Join<View<J>> for Hands {
    ghost use Rattle.job_tickets.specs.Tickets.{nobody, with_claim};

    ghost both = { with_claim };

    ghost spent = { nobody };
}

pub type Cell<J> = RuledSeqCell<[u64; 1], View<J>, Issued<J>, 1>;

/// A pass of the cell: the keeper's, or a ticket's.
pub type Bearer<J> = Pass<[u64; 1], View<J>>;
