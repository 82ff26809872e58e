use crate::facts::PassFacts;
use crate::sequential::Sequential;
use crate::view::SeatAt;
use std::marker::Model;

/// What a thread needs to take turns at a desk. Each has the number of one caller, and there are as
/// many as callers. It takes no bytes, can be sent to another thread, and can't be copied.
pub struct Pass<M: Sequential> {
    pub(crate) seat: SeatAt<M>,
}

impl<M: Sequential> Model for Pass<M> {
    ghost use Rattle.mv_desk.specs.declared.facts.PassFacts.{PassFacts};
    ghost use Rattle.mv_desk.specs.inside.Seats.{seat_facts, IsReady};

    ghost Value = { PassFacts M M.Entry M.Reply };

    ghost view = { λ pass. seat_facts pass.seat };

    ghost invariant = { λ pass. IsReady pass.seat.me };
}

impl<M: Sequential> Pass<M> {
    ghost use Rattle.std.specs.Prelude.{◌≡◌};
    ghost use Rattle.mv_desk.specs.inside.Seats.{seat_facts, IsReady};

    pub(crate) fn into_seat(self) -> SeatAt<M>
        ensures facts { seat_facts result ≡ self }
        ensures ready { IsReady result.me }
    {
        let Pass { seat } = self;
        seat
    }
}

impl<M: Sequential> Drop for Pass<M> {
    fn drop(self) {
        let Pass { seat: _ } = self;
    }
}
