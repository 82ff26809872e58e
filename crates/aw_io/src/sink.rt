ghost use Rattle.std.specs.Prelude.{◌≡◌, ℕ, ◌<◌, ◌≤◌, List, length, Option, [], IsOk, OnOk, OnErr};
ghost use Rattle.aw_lists.specs.Faults.{Rose};
ghost use Rattle.aw_io.specs.Known.{Grows, GrowsByFront};
ghost use Rattle.aw_io.specs.Sink.{Puts};

/// The answer of [`Sink::put`].
#[derive(Clone, Copy, Debug, PartialEq, Eq)]
pub enum Gave {
    /// The sink took this many of the bytes, at least one, from their front.
    Put(usize),
    /// The sink failed, and what it tells as written stays.
    Failed,
}

/// A sink failed before it took all bytes.
#[derive(Clone, Copy, Debug, PartialEq, Eq)]
pub struct SinkFault;

/// Where bytes go.
///
/// `written` is all that the sink was given, or `None` where it doesn't tell. `faults` counts its
/// failures in 64 bits and stays at the last value.
pub trait Sink {
    ghost written: { Self → Option (List ℕ) };

    ghost faults: { Self → ℕ };

    /// Writes the first of these bytes, of which there is at least one.
    fn put(&mut self, bytes: &[u8]) -> Gave
        requires { 0 < length bytes.now }
        ensures put { Puts result (written self.old) (written self.new) bytes.now }
        ensures later { faults self.old ≤ faults self.new }
        ensures cause { result ≡ Gave.Failed → Rose (faults self.old) (faults self.new) };
}

impl<K: Sink> Sink for &mut K {
    ghost written = { λ sink. K.written sink.now };

    ghost faults = { λ sink. K.faults sink.now };

    fn put(&mut self, bytes: &[u8]) -> Gave {
        Sink::put(&mut **self, bytes)
    }
}

/// Writes all bytes, in as many calls as it takes; no bytes make no call.
///
/// `SinkFault`: the sink failed, and took a front of the bytes before.
pub fn put_all<K: Sink>(sink: &mut K, bytes: &[u8]) -> Result<(), SinkFault>
    ensures nothing { bytes.now ≡ [] → IsOk result × (sink.new ≡ sink.old) }
    ensures ok { OnOk result (Grows (K.written sink.old) (K.written sink.new) bytes.now) }
    ensures err { OnErr result (GrowsByFront (K.written sink.old) (K.written sink.new) bytes.now) }
    ensures later { K.faults sink.old ≤ K.faults sink.new }
    ensures cause { OnErr result (Rose (K.faults sink.old) (K.faults sink.new)) }
{
    let mut done = 0;
    while done < bytes.len() {
        match sink.put(&bytes[done..]) {
            Gave::Put(count) => done += count,
            Gave::Failed => return Err(SinkFault),
        }
    }
    Ok(())
}
