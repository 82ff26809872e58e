ghost use Rattle.std.specs.Prelude.{◌≡◌, ◌≤◌, None, Some, [], length, IsTrue, OnOk, OnErr};
ghost use Rattle.aw_feed.specs.Listener.{Hears, goes_at};
ghost use Rattle.aw_feed.specs.MemListener.{after_note};

use crate::listener::{Heard, Listener};
use aw_lists::List;
use std::alloc::{AllocError, Global};
use std::marker::Model;

/// A listener that keeps the notes in memory, and goes where it finds none. It tells what it was
/// told, and so not when it goes.
#[derive(Debug, Drop)]
pub struct MemListener {
    notes: List<(u64, List<u8>)>,
    last: Option<u64>,
    alloc: Global,
}

impl Model for MemListener {
    ghost use Rattle.aw_feed.specs.MemListener.{MemListenerState};

    ghost Value = { MemListenerState };

    ghost view = { λ listener. record { told = listener.notes; last = listener.last } };
}

impl MemListener {
    /// A listener that was told nothing yet, and goes from the number `last` on, or never of itself.
    pub fn new(alloc: Global, last: Option<u64>) -> MemListener
        ensures { result ≡ record { told = []; last = last } }
    {
        MemListener {
            notes: List::new(alloc),
            last,
            alloc,
        }
    }

    /// The notes that it was told and stayed for: the number of each with its payload.
    pub fn notes(&self) -> &[(u64, List<u8>)]
        ensures { result.now ≡ self.now.told }
    {
        self.notes.as_slice()
    }

    // Puts a note behind the others, or leaves them as they were for want of memory.
    fn keep(&mut self, number: u64, payload: &[u8]) -> Result<(), AllocError>
        ensures ok { OnOk result (self.new ≡ after_note self.old (number, payload.now) Heard.Stay) }
        ensures err { OnErr result (self.new ≡ self.old) }
    {
        let payload = List::from_slice(self.alloc, payload)?;
        self.notes.push((number, payload))
    }
}

impl Listener for MemListener {
    ghost told = { λ listener. Some listener.told };

    ghost last = { λ _. None };

    fn commit(&mut self, number: u64, payload: &[u8]) -> Heard
        requires some { 1 ≤ length payload.now }
        requires within { length payload.now ≤ 67108864 }
        ensures told { Hears result (Some self.old.told) (Some self.new.told) (number, payload.now) }

        // It goes from its number on, and elsewhere only for want of memory.
        ensures goes { IsTrue (goes_at self.old.last number) → result ≡ Heard.Gone }
        ensures state { self.new ≡ after_note self.old (number, payload.now) result }
    {
        if self.last.is_some_and(|least| least <= number) {
            return Heard::Gone;
        }
        match self.keep(number, payload) {
            Ok(()) => Heard::Stay,
            Err(AllocError) => Heard::Gone,
        }
    }
}
