ghost use Rattle.std.specs.Prelude.{◌≡◌, ◌<◌, [], Some, length, IfOk, IfSome};
ghost use Rattle.aw_io.specs.Sink.{Puts};
ghost use Rattle.aw_io.specs.SureSink.{written_within};

use crate::NoMemory;
use crate::sink::{Gave, Sink};
use std::alloc::Global;
use std::marker::Model;

/// A sink that never fails, into memory that is taken when it is made. Once it was given more than
/// its room it keeps no further bytes and tells nothing.
#[derive(Debug, Drop)]
pub struct SureSink {
    bytes: Vec<u8>,
    room: usize,
    is_exceeded: bool,
}

impl Model for SureSink {
    ghost use Rattle.std.specs.Prelude.{◌≤◌, None, Some, if◌then◌else◌, vec_len, vec_capacity};
    ghost use Rattle.aw_io.specs.SureSink.{SureSinkState};

    ghost Value = { SureSinkState };

    ghost view = { λ sink. record { written = (if sink.is_exceeded then None else Some sink.bytes.items); room = sink.room } };

    ghost invariant = { λ sink. (vec_len sink.bytes ≤ sink.room) × (sink.room ≤ vec_capacity sink.bytes) };
}

impl SureSink {
    /// An empty sink for `room` bytes. `NoMemory`: there is no memory for them.
    pub fn new(alloc: Global, room: u32) -> Result<SureSink, NoMemory>
        ensures { IfOk result (λ sink. sink ≡ record { written = Some []; room = room }) }
    {
        let room = room as usize;
        let bytes = Vec::with_capacity(alloc, room)?;
        Ok(SureSink {
            bytes,
            room,
            is_exceeded: false,
        })
    }

    /// All bytes that were written, unless there were more than the room has.
    pub fn bytes(&self) -> &[u8]
        ensures { IfSome self.now.written (λ written. result.now ≡ written) }
    {
        self.bytes.as_slice()
    }
}

impl Sink for SureSink {
    ghost written = { λ sink. sink.written };

    ghost faults = { λ _. 0 };

    fn put(&mut self, bytes: &[u8]) -> Gave
        requires { 0 < length bytes.now }
        ensures put { Puts result self.old.written self.new.written bytes.now }

        // All bytes are taken at once.
        ensures whole { result ≡ Gave.Put (length bytes.now) }
        ensures written { self.new.written ≡ written_within self.old.room self.old.written bytes.now }
        ensures room { self.new.room ≡ self.old.room }
    {
        if self.is_exceeded || bytes.len() > self.room - self.bytes.len() {
            self.is_exceeded = true;
            return Gave::Put(bytes.len());
        }
        self.bytes.extend_from_slice(bytes).unwrap();
        Gave::Put(bytes.len())
    }
}
