// A type that stands for one shared log in contracts.

ghost use Rattle.logbook.specs.Pages.{Book};

use std::marker::Brand;

/// A type that stands for one shared log in contracts. Each call of a program picks it.
pub trait LogName {
    ghost book: { Book };
}

impl LogName for Brand {
    ghost book = { record { number = 0; log_name = 0; cells_name = 0 } };
}
