// How many tries there were.

/// So many tries in all, and so many of which something else came than must.
#[derive(Drop, Clone, Copy)]
pub struct Tries {
    pub all: u64,
    /// How many of them came to something else than they must.
    pub others: u64,
}

impl Tries {
    /// No try yet.
    pub fn new() -> Tries {
        Tries { all: 0, others: 0 }
    }

    /// One more try.
    pub fn count(&mut self, is_as_it_must: bool) {
        self.all = self.all.saturating_add(1);
        if !is_as_it_must {
            self.others = self.others.saturating_add(1);
        }
    }
}
