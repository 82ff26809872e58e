// The table of a desk: the words ticket and serving, and the slot of the machine.
ghost use Rattle.std.specs.Prelude.{◌≡◌};

use crate::rule::{Key, Turns};
use crate::sequential::Sequential;
use crate::view::View;
use atomic_table::Table;
use std::alloc::Global;

// The word that callers draw tickets from.
pub const TICKET: usize = 0;

// The word that says whose turn it is.
pub const SERVING: usize = 1;

// The slot of the machine.
pub const MACHINE: usize = 0;

pub struct TicketTable<M: Sequential> {
    pub table: Table<M, View<M, M::Entry, M::Reply>, Key<M>, Turns<M>, Global>,
    ghost words: { table.shared.table_id.words ≡ 2 },
    ghost slots: { table.shared.table_id.slots ≡ 1 },
}

impl<M: Sequential> TicketTable<M> {
    /// The table alone.
    pub fn into_table(self) -> Table<M, View<M, M::Entry, M::Reply>, Key<M>, Turns<M>, Global>
        ensures { result ≡ self.table }
    {
        let TicketTable { table } = self;
        table
    }
}

impl<M: Sequential + Drop> Drop for TicketTable<M> {
    fn drop(self) {
        let TicketTable { table: _ } = self;
    }
}
