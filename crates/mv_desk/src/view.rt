// What a seat at the table of a desk knows. No value of these is made.
use crate::history::Call;
use crate::sequential::Sequential;
use atomic_table::Seat;
use std::collections::LinkedList;

// A caller: its number, the beginning of the history that it has seen, and its own calls.
pub struct Caller<E, R> {
    pub number: u32,
    pub seen: LinkedList<Call<E, R>>,
    pub mine: LinkedList<Call<E, R>>,
}

// What a seat knows. It has one caller until it takes in another seat, and a seat that was taken in
// has none, and no opening machine. One view has the count of the callers that were made.
pub struct View<M, E, R> {
    pub opening: Option<M>,
    pub callers: LinkedList<Caller<E, R>>,
    pub count: Option<u32>,
    // The number of its draw. What the code has is its last 64 bits.
    pub ticket: Option<u64>,
    pub turn: bool,
    // With the turn, the whole history.
    pub copy: LinkedList<Call<E, R>>,
}

// A seat at the table of a desk over this machine.
pub type SeatAt<M> = Seat<M, View<M, <M as Sequential>::Entry, <M as Sequential>::Reply>>;
