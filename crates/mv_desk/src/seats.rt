// The seats at a table are made for its callers, and put together again.
ghost use Rattle.std.specs.Prelude.{◌≡◌, ◌+◌, ◌<◌, ◌≤◌, ℕ, Some, None, false, [], ◌∷◌, All, length, map, vec_len, vec_capacity};
ghost use Rattle.mv_desk.specs.Passes.{IsPassOf, new_passes};
ghost use Rattle.mv_desk.specs.inside.Rule.{Whole};
ghost use Rattle.mv_desk.specs.inside.Seats.{IsIdle, IsReady, fresh, caller_of};
ghost use Rattle.mv_desk.specs.inside.Steps.{splitting, split_off, joined};

use crate::pass::Pass;
use crate::plays::{Joining, Parting};
use crate::sequential::Sequential;
use crate::tickets::TicketTable;
use crate::view::SeatAt;

impl<M: Sequential> TicketTable<M> {
    // A seat for one more caller.
    fn split(&self, seat: &mut SeatAt<M>) -> SeatAt<M>
        requires table { seat.old.table_id ≡ self.now.table.shared.table_id }
        requires count { (n : ℕ) × (seat.old.me.0.count ≡ Some n) × (n < self.now.table.shared.key.most) }
        ensures old { (seat.new.table_id ≡ seat.old.table_id) × (seat.new.me ≡ (splitting seat.old.me.0, seat.old.me.1)) }
        ensures new { (result.table_id ≡ seat.old.table_id) × (result.me ≡ (split_off seat.old.me.0, [])) }
    {
        self.table.shared.split_seat::<Parting>(seat)
    }

    // Takes in the callers of another seat.
    fn join(&self, seat: &mut SeatAt<M>, other: SeatAt<M>)
        requires table { (seat.old.table_id ≡ self.now.table.shared.table_id) × (other.table_id ≡ self.now.table.shared.table_id) }
        requires idle { (seat.old.me.0.ticket ≡ None) × IsIdle other.me }
        ensures { (seat.new.table_id ≡ seat.old.table_id) × (seat.new.me ≡ (joined seat.old.me.0 other.me.0, seat.old.me.1)) }
    {
        self.table.shared.join_seat::<Joining>(seat, other);
    }

    /// The passes of all callers, where so far the first seat alone is there.
    pub fn seat_all(&self, first: SeatAt<M>, passes: Vec<Pass<M>>, callers: u32) -> Vec<Pass<M>>
        requires callers { (1 ≤ callers) × (callers ≡ self.now.table.shared.key.most) }
        requires table { first.table_id ≡ self.now.table.shared.table_id }
        requires ready { IsReady first.me × (first.me.0.opening ≡ Some self.now.table.shared.key.opening.value) }
        requires first { (first.me.0.count ≡ Some 1) × (first.me.0.callers ≡ fresh 0 ∷ []) }
        requires room { (passes.items ≡ []) × (callers ≤ vec_capacity passes) }
        ensures { result.items ≡ new_passes record { opening = self.now.table.shared.key.opening.value; callers = callers; table = self.now.table.shared.table_id } }
    {
        let mut first = first;
        let mut passes = passes;
        let mut others = 0;
        while others + 1 < callers {
            let seat = self.split(&mut first);
            passes.push_reserved(Pass { seat });
            others += 1;
        }
        passes.push_reserved(Pass { seat: first });
        passes.rotate_right(1);
        passes
    }

    /// All passes as one seat.
    pub fn join_all(&self, mut passes: Vec<Pass<M>>) -> SeatAt<M>
        requires ready { All (λ pass. pass.table ≡ self.now.table.shared.table_id) passes.items }
        requires some { 0 < vec_len passes }
        ensures table { result.table_id ≡ self.now.table.shared.table_id }
        ensures all { result.me.0.callers ≡ map caller_of passes.items }
        ensures idle { result.me.0.turn ≡ false }
    {
        let Some(last) = passes.pop() else {
            unreachable!()
        };
        let mut whole = last.into_seat();
        while let Some(pass) = passes.pop() {
            self.join(&mut whole, pass.into_seat());
        }
        whole
    }

    /// The machine of a table at which no other seat is left.
    pub fn end(self, whole: SeatAt<M>) -> M
        requires table { whole.table_id ≡ self.table.shared.table_id }
        requires idle { whole.me.0.turn ≡ false }
        requires all { self.table.shared.key.most ≤ length whole.me.0.callers }
        ensures { Whole M.step self.table.shared.key.opening.value self.table.shared.key.most whole.me.0.callers result }
    {
        let mut closed = self.into_table().close_with(whole);
        let machine = closed.take(0);
        closed.free();
        machine
    }
}
