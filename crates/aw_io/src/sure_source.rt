ghost use Rattle.std.specs.Prelude.{◌≡◌, ◌≢◌, ◌<◌, Some, length, min, drop};
ghost use Rattle.aw_io.specs.Source.{Takes};

use crate::copying::copy_front;
use crate::source::{Source, Took};
use aw_lists::List;
use std::marker::Model;

/// A source over bytes in memory that never fails. Contracts see it as the bytes left to give.
#[derive(Debug, Drop)]
pub struct SureSource {
    bytes: List<u8>,
    given: usize,
}

impl Model for SureSource {
    ghost use Rattle.std.specs.Prelude.{ℕ, ◌≤◌, List as Bytes, length, drop};

    ghost Value = { Bytes ℕ };

    ghost view = { λ source. drop source.given source.bytes };

    ghost invariant = { λ source. source.given ≤ length source.bytes };
}

impl SureSource {
    /// A source that gives these bytes.
    pub fn new(bytes: List<u8>) -> SureSource
        ensures { result ≡ bytes }
    {
        SureSource { bytes, given: 0 }
    }
}

impl Source for SureSource {
    ghost left = { λ source. Some source };

    ghost faults = { λ _. 0 };

    fn take(&mut self, into: &mut [u8]) -> Took
        requires { 0 < length into.old }
        ensures taken { Takes result (Some self.old) (Some self.new) into.new }
        ensures never { result ≢ Took.Failed }

        // As many bytes as fit come at once.
        ensures fills { self.new ≡ drop (min (length self.old) (length into.old)) self.old }
    {
        let count = copy_front(&self.bytes.as_slice()[self.given..], into);
        if count == 0 {
            return Took::End;
        }
        self.given += count;
        Took::Got(count)
    }
}
