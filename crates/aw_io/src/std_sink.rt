ghost use Rattle.std.specs.Prelude.{◌≡◌, ◌<◌, ◌≤◌, None, IfOk, IsTrue, is_some, length, take};
ghost use Rattle.std.specs.Io.KnownBytes.{Appends};
ghost use Rattle.aw_lists.specs.Faults.{Rose};
ghost use Rattle.aw_io.specs.Sink.{Puts};
ghost use Rattle.aw_io.specs.StdSink.{Writes, writer_of, faults_of, faults_after, tells_why};

use crate::sink::{Gave, Sink};
use std::io;
use std::io::Write;

/// A writer of std as a sink. It doesn't tell what was written. What it took is flushed at once. A
/// write that fails or takes nothing, and a flush that fails, count as a fault.
#[derive(Drop)]
pub struct StdSink<W> {
    writer: W,
    faults: u64,
    error: Option<io::Error>,
}

impl<W: Write + Drop> StdSink<W> {
    /// A sink with this writer and no fault yet.
    pub fn new(writer: W) -> StdSink<W>
        ensures faults { faults_of result ≡ 0 }
        ensures writer { writer_of result ≡ writer }
    {
        StdSink {
            writer,
            faults: 0,
            error: None,
        }
    }

    /// What std said at the last failure, or nothing where no call failed.
    pub fn error(&self) -> Option<io::Error>
        ensures { is_some result ≡ tells_why self.now }
    {
        self.error
    }
}

impl<W: Write + Drop> Sink for StdSink<W> {
    ghost written = { λ _. None };

    ghost faults = { faults_of };

    fn put(&mut self, bytes: &[u8]) -> Gave
        requires { 0 < length bytes.now }
        ensures put { Puts result None None bytes.now }
        ensures later { faults_of self.old ≤ faults_of self.new }
        ensures cause { result ≡ Gave.Failed → Rose (faults_of self.old) (faults_of self.new) }

        // Only a failure counts. Where std knows what the writer holds, it gained these bytes.
        ensures counted { faults_of self.new ≡ faults_after (faults_of self.old) result }
        ensures told { result ≡ Gave.Failed → IsTrue (tells_why self.new) }
        ensures writes { Writes result (W.contents (writer_of self.old)) (W.contents (writer_of self.new)) bytes.now }
    {
        let error = match write_through(&mut self.writer, bytes) {
            Ok(count) if count > 0 => return Gave::Put(count),
            Ok(_) => io::ErrorKind::WriteZero.into(),
            Err(error) => error,
        };
        self.faults = self.faults.saturating_add(1);
        self.error = Some(error);
        Gave::Failed
    }
}

// Writes some of the bytes, and sees them out of the writer's own buffer.
fn write_through<W: Write>(writer: &mut W, bytes: &[u8]) -> io::Result<usize>
    ensures within { IfOk result (λ count. count ≤ length bytes.now) }
    ensures gained { IfOk result (λ count. Appends (W.contents writer.old) (W.contents writer.new) (take count bytes.now)) }
{
    let count = writer.write(bytes)?;
    writer.flush()?;
    Ok(count)
}
