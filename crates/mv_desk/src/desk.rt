ghost use Rattle.std.specs.Prelude.{◌≡◌, ◌+◌, ◌<◌, ◌≤◌, ◌↔◌, ℕ, [], ◌∷◌, ◌++◌, All, length, IfOk, IfErr, IsErr, vec_len};
ghost use Rattle.mv_desk.specs.History.{call_of, calls_by, Grows, IsLegal};
ghost use Rattle.mv_desk.specs.Passes.{IsPassOf, new_passes, IsMissing, ClosesAs};

use crate::pass::Pass;
use crate::rule::Key;
use crate::sequential::Sequential;
use crate::tickets::TicketTable;
use atomic_table::{Refused, Table};
use aw_lists::List;
use std::alloc::Global;
use std::marker::Model;
use std::snapshot::Snapshot;
use std::sync::Wait;

/// A machine that threads share by taking turns (docs/SHARING.md, "Turns"). It can be sent to another
/// thread and shared by reference, where its machine can be sent.
pub struct Desk<M: Sequential> {
    tickets: TicketTable<M>,
    callers: u32,
}

impl<M: Sequential> Model for Desk<M> {
    ghost use Rattle.std.specs.Prelude.{◌≡◌, ◌<◌};
    ghost use Rattle.mv_desk.specs.declared.facts.DeskFacts.{DeskFacts};

    ghost Value = { DeskFacts M };

    ghost view = { λ desk. record { opening = desk.tickets.table.shared.key.opening.value; callers = desk.callers; table = desk.tickets.table.shared.table_id } };

    ghost invariant = { λ desk. (desk.tickets.table.shared.key.most ≡ desk.callers) × (0 < desk.callers) };
}

/// Want of memory for a desk. The machine comes back.
#[derive(Drop)]
pub struct Unmade<M> {
    pub machine: M,
}

/// A pass of the desk is missing. The desk and the passes that were handed in come back as they were.
#[derive(Drop)]
pub struct Unclosed<M: Sequential> {
    pub desk: Desk<M>,
    pub passes: List<Pass<M>>,
}

impl<M: Sequential> Desk<M> {
    /// A desk over this machine, with a pass for each caller, by number from 0. The error is want of
    /// memory.
    pub fn new(
        alloc: Global,
        machine: M,
        callers: u32,
    ) -> Result<(Desk<M>, List<Pass<M>>), Unmade<M>>
        requires { (1 ≤ callers) × (callers ≤ 64) }
        ensures desk { IfOk result (λ r. (r.0.opening ≡ machine) × (r.0.callers ≡ callers)) }
        ensures passes { IfOk result (λ r. r.1 ≡ new_passes r.0) }
        ensures own { IfOk result (λ r. All (IsPassOf r.0) r.1) }
        ensures all { IfOk result (λ r. length r.1 ≡ callers) }
        ensures err { IfErr result (λ unmade. unmade.machine ≡ machine) }
    {
        let Ok(passes) = Vec::with_capacity(alloc, callers as usize) else {
            return Err(Unmade { machine });
        };
        let Ok(mut slots) = Vec::with_capacity(alloc, 1) else {
            return Err(Unmade { machine });
        };
        let key = Key {
            opening: Snapshot::of(&machine),
            most: callers,
        };
        slots.push_reserved(machine);
        match Table::new(alloc, &[0, 0], slots, &key) {
            Ok((table, first)) => {
                let tickets = TicketTable { table };
                let passes = tickets.seat_all(first, passes, callers);
                Ok((Desk { tickets, callers }, List::from_vec(passes)))
            }
            Err(refused) => Err(Unmade {
                machine: taken_back(refused),
            }),
        }
    }

    /// Waits for the caller's turn, lets the machine take the entry, and passes the turn on. The answer
    /// is the place of this call in the desk history, from 0, and the machine's reply there. A caller
    /// that draws the ticket 2^64-1 waits for ever.
    pub fn act(&self, rt: &impl Wait, pass: &mut Pass<M>, entry: &M::Entry) -> (u64, M::Reply)
        requires { IsPassOf self.now pass.old }
        ensures same { IsPassOf self.now pass.new × (pass.new.number ≡ pass.old.number) }
        ensures seen { Grows pass.old.seen (call_of pass.old.number entry.now result.1) pass.new.seen }
        ensures place { length pass.new.seen ≡ result.0 + 1 }
        ensures legal { IsLegal M.step self.now.opening pass.new.seen }
        ensures mine { pass.new.mine ≡ pass.old.mine ++ call_of pass.old.number entry.now result.1 ∷ [] }
        ensures own { calls_by pass.new.number pass.new.seen ≡ pass.new.mine }
    {
        self.tickets.take_turn(rt, &mut pass.seat, entry)
    }

    /// The machine, once every pass of the desk is handed in. Where one is missing, all come back.
    pub fn close(self, passes: List<Pass<M>>) -> Result<M, Unclosed<M>>
        requires { All (λ pass. IsPassOf self pass) passes }
        ensures missing { IsErr result ↔ IsMissing self passes }
        ensures fewer { IsErr result ↔ (length passes < self.callers) }
        ensures ok { IfOk result (λ machine. (length passes ≡ self.callers) × ClosesAs M.step self passes machine) }
        ensures err { IfErr result (λ unclosed. (unclosed.desk ≡ self) × (unclosed.passes ≡ passes)) }
    {
        if passes.len() < self.callers as usize {
            return Err(Unclosed { desk: self, passes });
        }
        let whole = self.tickets.join_all(passes.into_vec());
        Ok(self.into_tickets().end(whole))
    }

    fn into_tickets(self) -> TicketTable<M>
        ensures value { (result.table.shared.key.opening.value ≡ self.opening) × (result.table.shared.table_id ≡ self.table) }
        ensures most { (result.table.shared.key.most ≡ self.callers) × (0 < self.callers) }
    {
        let Desk {
            tickets,
            callers: _,
        } = self;
        tickets
    }
}

impl<M: Sequential + Drop> Drop for Desk<M> {
    fn drop(self) {
        let Desk {
            tickets: _,
            callers: _,
        } = self;
    }
}

// The one slot of a table that was not made.
fn taken_back<M>(refused: Refused<M, Global>) -> M
    requires { vec_len refused.slots ≡ 1 }
    ensures { refused.slots.items ≡ result ∷ [] }
{
    let Refused { mut slots } = refused;
    let Some(machine) = slots.pop() else {
        unreachable!()
    };
    slots.destroy_empty();
    machine
}
