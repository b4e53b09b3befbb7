// Tickets, and whoever keeps them.

ghost use Rattle.std.specs.Prelude.{◌≡◌, [], ◌∷◌, ◌++◌, Some, length};
ghost use Rattle.crossbeam_utils.specs.Seq.{cell_view};
ghost use Rattle.job_tickets.specs.Tickets.{TakenBack, knower};

use crate::law::{Bearer, Cell, Given, Gives, Hands, TakesBack};
use crate::name::TicketName;
use std::alloc::{AllocError, Global};
use std::marker::{Brand, Model, PhantomData};
use std::sync::Wait;

/// Tickets of which none was given out, which have no name yet.
#[derive(Drop)]
pub struct OpenedTickets<J> {
    cell: Cell<J>,
    keeper: Bearer<J>,
    pub ghost own: { keeper.table_id ≡ cell.table.shared.table_id },
    pub ghost empty: { cell_view keeper ≡ knower [] },
}

impl<J> OpenedTickets<J> {
    /// Tickets of which none was given out.
    pub fn new(alloc: Global) -> Result<OpenedTickets<J>, AllocError> {
        let (cell, keeper) = Cell::ruled(alloc, [0])?;
        Ok(OpenedTickets { cell, keeper })
    }

    /// The tickets under a name.
    pub fn named<P: TicketName>(self) -> Tickets<J, P>
        requires { self.keeper.table_id ≡ P.table }
        ensures { result ≡ [] }
    {
        let OpenedTickets { cell, keeper } = self;
        Tickets {
            cell,
            keeper,
            of: PhantomData,
        }
    }
}

/// The tickets of the name, kept by one. Contracts see for what each was given out, in their order, until it is handed back.
#[derive(Drop)]
pub struct Tickets<J, P: TicketName> {
    cell: Cell<J>,
    keeper: Bearer<J>,
    of: PhantomData<P>,
}

impl<J, P: TicketName> Model for Tickets<J, P> {
    ghost use Rattle.std.specs.Prelude.{◌≡◌, List, Option};
    ghost use Rattle.crossbeam_utils.specs.Seq.{cell_view};
    ghost use Rattle.job_tickets.specs.Tickets.{knower};

    ghost Value = { List (Option J) };

    ghost view = { λ t. (cell_view t.keeper).all };

    ghost invariant = { λ t. (t.cell.table.shared.table_id ≡ P.table) × (t.keeper.table_id ≡ P.table)
        × (cell_view t.keeper ≡ knower (cell_view t.keeper).all) };
}

/// A ticket of the name: there is no other of its place. Contracts see its place among all, and for what it was given out.
#[derive(Drop)]
pub struct Ticket<J, P: TicketName> {
    bearer: Bearer<J>,
    of: PhantomData<P>,
}

impl<J, P: TicketName> Model for Ticket<J, P> {
    ghost use Rattle.std.specs.Prelude.{◌≡◌, [], Option};
    ghost use Rattle.crossbeam_utils.specs.Seq.{cell_view};
    ghost use Rattle.job_tickets.specs.declared.law.Claim.{Claim};

    ghost Value = { Option (Claim J) };

    ghost view = { λ t. (cell_view t.bearer).claim };

    ghost invariant = { λ t. (t.bearer.table_id ≡ P.table) × (t.bearer.me.1 ≡ []) };
}

impl<J, P: TicketName> Tickets<J, P> {
    /// A ticket for what `B` stands for: see `give`.
    fn give_as<B: Given<J>, R: Wait>(&mut self, rt: &R, of: &J) -> Ticket<J, P>
        requires named { B.of ≡ Some of.now }
        ensures tickets { self.new ≡ self.old ++ Some of.now ∷ [] }
        ensures ticket { result ≡ Some (record { place = length self.old; of = of.now }) }
    {
        self.cell.load_as::<Gives<B>, R>(rt, &mut self.keeper);
        Ticket {
            bearer: self.cell.split_pass::<Hands>(&mut self.keeper),
            of: PhantomData,
        }
    }

    /// Gives a ticket out, the next one.
    pub fn give<R: Wait>(&mut self, rt: &R, of: &J) -> Ticket<J, P>
        ensures tickets { self.new ≡ self.old ++ Some of.now ∷ [] }
        ensures ticket { result ≡ Some (record { place = length self.old; of = of.now }) }
    {
        self.give_as::<Brand, R>(rt, of)
    }

    /// Takes a ticket back: it was given out for that, and wasn't handed back before.
    pub fn take_back<R: Wait>(&mut self, rt: &R, ticket: Ticket<J, P>)
        ensures { TakenBack ticket self.old self.new }
    {
        self.cell
            .join_pass::<Hands>(&mut self.keeper, ticket.bearer);
        self.cell.load_as::<TakesBack, R>(rt, &mut self.keeper);
    }
}
