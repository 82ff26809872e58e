ghost use Rattle.std.specs.Prelude.{◌≡◌, ◌<◌, ◌≤◌, ℕ, Some, length, Contains};
ghost use Rattle.aw_io.specs.Sink.{Puts};
ghost use Rattle.aw_lists.specs.Faults.{Rose};
ghost use Rattle.aw_io.specs.MemSink.{after_put};

use crate::sink::{Gave, Sink};
use aw_lists::{FailingCalls, List};
use std::marker::Model;

/// A sink into memory that fails at listed calls, which are counted from 0, and where it finds no
/// memory.
#[derive(Debug, Drop)]
pub struct MemSink {
    bytes: Vec<u8>,
    calls: FailingCalls,
}

impl Model for MemSink {
    ghost use Rattle.aw_io.specs.MemSink.{MemSinkState};

    ghost Value = { MemSinkState };

    ghost view = { λ sink. record { written = sink.bytes.items; failing = sink.calls.listed; calls = sink.calls.calls; faults = sink.calls.faults } };
}

impl MemSink {
    /// A sink with these bytes as written already, which fails at each call whose number is in
    /// `failing`.
    pub fn new(bytes: List<u8>, failing: List<u64>) -> MemSink
        ensures { result ≡ record { written = bytes; failing = failing; calls = 0; faults = 0 } }
    {
        MemSink {
            bytes: bytes.into_vec(),
            calls: FailingCalls::new(failing),
        }
    }

    /// All bytes that were written.
    pub fn bytes(&self) -> &[u8]
        ensures { result.now ≡ self.now.written }
    {
        self.bytes.as_slice()
    }
}

impl Sink for MemSink {
    ghost written = { λ sink. Some sink.written };

    ghost faults = { λ sink. sink.faults };

    fn put(&mut self, bytes: &[u8]) -> Gave
        requires { 0 < length bytes.now }
        ensures put { Puts result (Some self.old.written) (Some self.new.written) bytes.now }
        ensures later { self.old.faults ≤ self.new.faults }
        ensures cause { result ≡ Gave.Failed → Rose self.old.faults self.new.faults }

        // A listed call fails. Any other takes all bytes, or fails for want of memory.
        ensures fails { Contains self.old.failing self.old.calls → result ≡ Gave.Failed }
        ensures whole { (n : ℕ) → result ≡ Gave.Put n → n ≡ length bytes.now }
        ensures state { self.new ≡ after_put self.old bytes.now result }
    {
        if self.calls.next_fails() || self.bytes.extend_from_slice(bytes).is_err() {
            self.calls.count_fault();
            return Gave::Failed;
        }
        Gave::Put(bytes.len())
    }
}
