// What each kind of step tells the seat that makes it. These types are for the proofs alone.
use crate::history::Call;
use crate::rule::Said;
use crate::sequential::Sequential;
use crate::view::View;
use atomic_table::{Join, Play, Split};
use std::marker::PhantomData;

// To draw a ticket.
pub struct Draw;

impl<M, E, R> Play<M, View<M, E, R>> for Draw {
    ghost use Rattle.mv_desk.specs.inside.Steps.{drew};

    ghost then = { drew };
}

// To look at serving.
pub struct Look;

impl<M: Sequential> Play<M, View<M, M::Entry, M::Reply>> for Look {
    ghost use Rattle.mv_desk.specs.inside.Steps.{looked};

    ghost then = { looked M.step };
}

// To pass the turn on, with a call.
pub struct PassOn<W> {
    said: PhantomData<W>,
}

impl<M, E, R, W: Said<Call<E, R>>> Play<M, View<M, E, R>> for PassOn<W> {
    ghost use Rattle.mv_desk.specs.inside.Steps.{passed};

    ghost then = { passed W.item };
}

// To split a seat.
pub struct Parting;

impl<M, E, R> Split<View<M, E, R>> for Parting {
    ghost use Rattle.mv_desk.specs.inside.Steps.{splitting, split_off};

    ghost left = { splitting };

    ghost right = { split_off };
}

// To join a seat.
pub struct Joining;

impl<M, E, R> Join<View<M, E, R>> for Joining {
    ghost use Rattle.mv_desk.specs.inside.Steps.{joined, nobody};

    ghost both = { joined };

    ghost spent = { nobody };
}
