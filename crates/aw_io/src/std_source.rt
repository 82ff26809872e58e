ghost use Rattle.std.specs.Prelude.{◌≡◌, ◌<◌, ◌≤◌, None, IsTrue, is_some, length};
ghost use Rattle.aw_lists.specs.Faults.{Rose};
ghost use Rattle.aw_io.specs.Source.{Takes};
ghost use Rattle.aw_io.specs.StdSource.{Reads, reader_of, faults_of, faults_after, tells_why};

use crate::source::{Source, Took};
use std::io;
use std::io::Read;

/// A reader of std as a source. It doesn't tell what is left. A read that fails, interrupted ones
/// included, counts as a fault, and a reader that gives nothing is at its end.
#[derive(Drop)]
pub struct StdSource<R> {
    reader: R,
    faults: u64,
    error: Option<io::Error>,
}

impl<R: Read + Drop> StdSource<R> {
    /// A source with this reader and no fault yet.
    pub fn new(reader: R) -> StdSource<R>
        ensures faults { faults_of result ≡ 0 }
        ensures reader { reader_of result ≡ reader }
    {
        StdSource {
            reader,
            faults: 0,
            error: None,
        }
    }

    /// What std said at the last failure, or nothing where no call failed.
    pub fn error(&self) -> Option<io::Error>
        ensures { is_some result ≡ tells_why self.now }
    {
        self.error
    }
}

impl<R: Read + Drop> Source for StdSource<R> {
    ghost left = { λ _. None };

    ghost faults = { faults_of };

    fn take(&mut self, into: &mut [u8]) -> Took
        requires { 0 < length into.old }
        ensures taken { Takes result None None into.new }
        ensures later { faults_of self.old ≤ faults_of self.new }
        ensures cause { result ≡ Took.Failed → Rose (faults_of self.old) (faults_of self.new) }

        // Only a failure counts. Where std knows what the reader has left, these are its bytes.
        ensures counted { faults_of self.new ≡ faults_after (faults_of self.old) result }
        ensures told { result ≡ Took.Failed → IsTrue (tells_why self.new) }
        ensures reads { Reads result (R.remaining (reader_of self.old)) (R.remaining (reader_of self.new)) into.new }
    {
        match self.reader.read(into) {
            Ok(0) => Took::End,
            Ok(count) => Took::Got(count),
            Err(error) => {
                self.faults = self.faults.saturating_add(1);
                self.error = Some(error);
                Took::Failed
            }
        }
    }
}
