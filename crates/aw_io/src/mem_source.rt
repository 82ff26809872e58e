ghost use Rattle.std.specs.Prelude.{◌≡◌, ◌<◌, ◌≤◌, ◌↔◌, ℕ, Some, length, min, Contains};
ghost use Rattle.aw_io.specs.Source.{Takes};
ghost use Rattle.aw_lists.specs.Faults.{Rose};
ghost use Rattle.aw_io.specs.MemSource.{after_take};

use crate::source::{Source, Took};
use crate::sure_source::SureSource;
use aw_lists::{FailingCalls, List};
use std::marker::Model;

/// A source over bytes in memory that fails at listed calls, which are counted from 0.
#[derive(Debug, Drop)]
pub struct MemSource {
    source: SureSource,
    calls: FailingCalls,
}

impl Model for MemSource {
    ghost use Rattle.aw_io.specs.MemSource.{MemSourceState};

    ghost Value = { MemSourceState };

    ghost view = { λ source. record { left = source.source; failing = source.calls.listed; calls = source.calls.calls; faults = source.calls.faults } };
}

impl MemSource {
    /// A source that gives these bytes, and fails at each call whose number is in `failing`.
    pub fn new(bytes: List<u8>, failing: List<u64>) -> MemSource
        ensures { result ≡ record { left = bytes; failing = failing; calls = 0; faults = 0 } }
    {
        MemSource {
            source: SureSource::new(bytes),
            calls: FailingCalls::new(failing),
        }
    }
}

impl Source for MemSource {
    ghost left = { λ source. Some source.left };

    ghost faults = { λ source. source.faults };

    fn take(&mut self, into: &mut [u8]) -> Took
        requires { 0 < length into.old }
        ensures taken { Takes result (Some self.old.left) (Some self.new.left) into.new }
        ensures later { self.old.faults ≤ self.new.faults }
        ensures cause { result ≡ Took.Failed → Rose self.old.faults self.new.faults }

        // A call fails exactly where its number is listed. Any other gives as many bytes as fit.
        ensures fails { (result ≡ Took.Failed) ↔ Contains self.old.failing self.old.calls }
        ensures fills { (n : ℕ) → result ≡ Took.Got n → n ≡ min (length self.old.left) (length into.old) }
        ensures state { self.new ≡ after_take self.old result }
    {
        if self.calls.next_fails() {
            self.calls.count_fault();
            return Took::Failed;
        }
        self.source.take(into)
    }
}
