// The rule of the table of a desk.
ghost use Rattle.std.specs.Prelude.{Option};

use crate::sequential::Sequential;
use crate::view::View;
use atomic_table::TableRule;
use std::marker::{Brand, PhantomData};
use std::snapshot::Snapshot;

// What the table is told once: the opening machine, and how many callers there may be.
pub struct Key<M> {
    pub opening: Snapshot<M>,
    pub most: u32,
}

impl<M> Drop for Key<M> {
    fn drop(self) {
        let Key {
            opening: _,
            most: _,
        } = self;
    }
}

// The rule.
pub struct Turns<M> {
    machine: PhantomData<M>,
}

impl<M: Sequential> TableRule<M, View<M, M::Entry, M::Reply>, Key<M>> for Turns<M> {
    ghost use Rattle.mv_desk.specs.inside.Rule.{Kept, newcomer};

    ghost holds = { λ key. Kept M.step key.opening.value key.most };

    ghost first = { λ key. newcomer key.opening.value };
}

// What the step that passes the turn on adds to the history. It stands in the proofs alone.
pub trait Said<X> {
    ghost item: { Option X };
}

impl<X> Said<X> for Brand {
    ghost use Rattle.std.specs.Prelude.{None};

    ghost item = { None };
}
