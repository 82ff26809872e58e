// One turn at the table of a desk.
ghost use Rattle.std.specs.Prelude.{◌≡◌, ◌+◌, ◌<◌, ◌^◌, ◌%◌, ◌≢◌, ℕ, Some, None, [], ◌∷◌, ◌++◌, true, false, length};
ghost use Rattle.mv_desk.specs.History.{call_of, calls_by, Grows, IsLegal};
ghost use Rattle.mv_desk.specs.inside.Seats.{caller, IsIdle, IsReady};
ghost use Rattle.mv_desk.specs.inside.Steps.{Drawn, Holds, CanPass, served};

use crate::history::Call;
use crate::plays::{Draw, Look, PassOn};
use crate::rule::Said;
use crate::sequential::Sequential;
use crate::tickets::{MACHINE, SERVING, TICKET, TicketTable};
use crate::view::SeatAt;
use std::marker::Brand;
use std::sync::Wait;

// How often a caller looks at serving before it sleeps.
const LOOKS: u32 = 64;

impl<M: Sequential> TicketTable<M> {
    fn draw(&self, seat: &mut SeatAt<M>) -> u64
        requires table { seat.old.table_id ≡ self.now.table.shared.table_id }
        requires idle { IsIdle seat.old.me }
        ensures table { seat.new.table_id ≡ seat.old.table_id }
        ensures drawn { Drawn seat.old.me result seat.new.me }
    {
        self.table.shared.fetch_add::<Draw>(seat, TICKET, 1)
    }

    // Looks at serving once, and takes the machine where it is the seat's turn.
    fn look(&self, seat: &mut SeatAt<M>) -> u64
        requires table { seat.old.table_id ≡ self.now.table.shared.table_id }
        requires waits { seat.old.me.0.turn ≡ false }
        ensures table { (seat.new.table_id ≡ seat.old.table_id) × (seat.new.id ≡ seat.old.id) }
        ensures looked { (d : ℕ) → seat.old.me.0.ticket ≡ Some d → (result ≡ d % 2 ^ 64 → Holds M.step seat.old.me result seat.new.me) × (result ≢ d % 2 ^ 64 → seat.new.me ≡ seat.old.me) }
    {
        self.table.shared.load::<Look>(seat, SERVING)
    }

    // Waits until serving is the ticket that was drawn.
    fn wait<R: Wait>(&self, rt: &R, seat: &mut SeatAt<M>, ticket: u64)
        requires table { seat.old.table_id ≡ self.now.table.shared.table_id }
        requires drawn { (d : ℕ) × (seat.old.me.0.ticket ≡ Some d) × (ticket ≡ d % 2 ^ 64) × (seat.old.me.0.turn ≡ false) }
        ensures table { seat.new.table_id ≡ seat.old.table_id }
        ensures turn { Holds M.step seat.old.me ticket seat.new.me }
        ensures room { ticket + 1 < 2 ^ 64 }
    {
        for _ in rt.forever() {
            if ticket < u64::MAX && self.look(seat) == ticket {
                return;
            }
            self.pause(rt, ticket);
        }
        unreachable!()
    }

    // Looks for a while, and then sleeps until serving changes, unless it is the ticket.
    fn pause<R: Wait>(&self, rt: &R, ticket: u64) {
        for _ in 0..LOOKS {
            if self.table.shared.peek(SERVING) == ticket {
                return;
            }
        }
        let found = self.table.shared.peek(SERVING);
        if found != ticket {
            self.table
                .shared
                .park(rt, SERVING, (found % (1 << 32)) as u32);
        }
    }

    // Wakes the callers that wait behind this place, if there are any.
    fn wake(&self, place: u64) {
        if self.table.shared.peek(TICKET) != place.wrapping_add(1) {
            self.table.shared.wake_all(SERVING);
        }
    }

    // The machine takes the entry.
    fn work(&self, seat: &mut SeatAt<M>, entry: &M::Entry) -> M::Reply
        requires table { seat.old.table_id ≡ self.now.table.shared.table_id }
        requires holds { (x : M) × (seat.old.me.1 ≡ (0, x) ∷ []) }
        ensures table { seat.new.table_id ≡ seat.old.table_id }
        ensures view { seat.new.me.0 ≡ seat.old.me.0 }
        ensures step { (x : M) × (y : M) × (seat.old.me.1 ≡ (0, x) ∷ []) × (seat.new.me.1 ≡ (0, y) ∷ []) × M.step x entry.now result y }
    {
        seat.slot_mut(&self.table.shared, MACHINE).act(entry)
    }

    // Gives the machine back and passes the turn on. The entry and the reply join the history here.
    fn pass_on<W: Said<Call<M::Entry, M::Reply>>>(
        &self,
        seat: &mut SeatAt<M>,
        _entry: &M::Entry,
        _reply: &M::Reply,
    )
        requires said { W.item ≡ Some (call_of (caller seat.old.me.0).number _entry.now _reply.now) }
        requires table { seat.old.table_id ≡ self.now.table.shared.table_id }
        requires turn { (seat.old.me.0.turn ≡ true) × (length seat.old.me.0.copy + 1 < 2 ^ 64) }
        requires acted { CanPass M.step self.now.table.shared.key.opening.value (call_of (caller seat.old.me.0).number _entry.now _reply.now) seat.old.me }
        ensures table { seat.new.table_id ≡ seat.old.table_id }
        ensures passed { seat.new.me ≡ (served (call_of (caller seat.old.me.0).number _entry.now _reply.now) seat.old.me.0, []) }
    {
        self.table.shared.fetch_add::<PassOn<W>>(seat, SERVING, 1);
    }

    /// Draws a ticket, waits for its turn, has the machine take the entry, and passes the turn on. The
    /// answer is the place in the history, and the reply.
    pub fn take_turn<R: Wait>(
        &self,
        rt: &R,
        seat: &mut SeatAt<M>,
        entry: &M::Entry,
    ) -> (u64, M::Reply)
        requires table { seat.old.table_id ≡ self.now.table.shared.table_id }
        requires ready { IsReady seat.old.me }
        requires opened { seat.old.me.0.opening ≡ Some self.now.table.shared.key.opening.value }
        ensures table { seat.new.table_id ≡ seat.old.table_id }
        ensures ready { IsReady seat.new.me }
        ensures same { (seat.new.me.0.opening ≡ seat.old.me.0.opening) × ((caller seat.new.me.0).number ≡ (caller seat.old.me.0).number) }
        ensures seen { Grows (caller seat.old.me.0).seen (call_of (caller seat.old.me.0).number entry.now result.1) (caller seat.new.me.0).seen }
        ensures place { length (caller seat.new.me.0).seen ≡ result.0 + 1 }
        ensures legal { IsLegal M.step self.now.table.shared.key.opening.value (caller seat.new.me.0).seen }
        ensures mine { (caller seat.new.me.0).mine ≡ (caller seat.old.me.0).mine ++ call_of (caller seat.old.me.0).number entry.now result.1 ∷ [] }
        ensures own { calls_by (caller seat.new.me.0).number (caller seat.new.me.0).seen ≡ (caller seat.new.me.0).mine }
    {
        let place = self.draw(seat);
        self.wait(rt, seat, place);
        let reply = self.work(seat, entry);
        self.pass_on::<Brand>(seat, entry, &reply);
        self.wake(place);
        (place, reply)
    }
}
