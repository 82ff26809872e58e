// What clauses see of a desk and of a pass. No value of these is made.
ghost use Rattle.atomic_table.specs.Seated.{TableId, table_id_coded};

use crate::history::Call;
use std::collections::LinkedList;
use std::marker::Model;

/// A desk as contracts see it: the machine that it was opened with, the number of its callers, and its
/// identity, which no other desk has.
pub struct DeskFacts<M> {
    pub opening: M,
    pub callers: u32,
    pub ghost table: { TableId } by { table_id_coded },
}

impl<M> Model for DeskFacts<M> {
    ghost use base.Fml.{ftrue};

    ghost also_owns = { λ _. ftrue };
}

/// A pass as contracts see it: the opening machine and the identity of its desk, the number of its
/// caller, how much of the desk history it has seen, and the caller's own calls.
pub struct PassFacts<M, E, R> {
    pub opening: Option<M>,
    pub number: u32,
    pub seen: LinkedList<Call<E, R>>,
    pub mine: LinkedList<Call<E, R>>,
    pub ghost table: { TableId } by { table_id_coded },
}

impl<M, E, R> Model for PassFacts<M, E, R> {
    ghost use base.Fml.{ftrue};

    ghost also_owns = { λ _. ftrue };
}
