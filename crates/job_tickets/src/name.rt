// A type that stands for the tickets of one run in contracts.

ghost use Rattle.atomic_table.specs.Seated.{TableId};

use std::marker::Brand;

/// A type that stands for the tickets of one run in contracts. Each call of a program picks it.
pub trait TicketName {
    ghost table: { TableId };
}

impl TicketName for Brand {
    ghost use Rattle.job_tickets.specs.Tickets.{no_table};

    ghost table = { no_table };
}
