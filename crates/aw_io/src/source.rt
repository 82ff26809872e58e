ghost use Rattle.std.specs.Prelude.{◌≡◌, ℕ, ◌<◌, ◌≤◌, List, length, Option};
ghost use Rattle.aw_lists.specs.Faults.{Rose};
ghost use Rattle.aw_io.specs.Source.{Takes};

/// The answer of [`Source::take`].
#[derive(Clone, Copy, Debug, PartialEq, Eq)]
pub enum Took {
    /// This many bytes, at least one, stand at the front of the buffer.
    Got(usize),
    /// The source has nothing left.
    End,
    /// The source failed, and what it tells as left stays.
    Failed,
}

/// Where bytes come from.
///
/// `left` is what the source has still to give, or `None` where it doesn't tell. `faults` counts
/// its failures in 64 bits and stays at the last value.
pub trait Source {
    ghost left: { Self → Option (List ℕ) };

    ghost faults: { Self → ℕ };

    /// Puts the next bytes at the front of `into`, which has room for at least one.
    fn take(&mut self, into: &mut [u8]) -> Took
        requires { 0 < length into.old }
        ensures taken { Takes result (left self.old) (left self.new) into.new }
        ensures later { faults self.old ≤ faults self.new }
        ensures cause { result ≡ Took.Failed → Rose (faults self.old) (faults self.new) };
}

impl<S: Source> Source for &mut S {
    ghost left = { λ source. S.left source.now };

    ghost faults = { λ source. S.faults source.now };

    fn take(&mut self, into: &mut [u8]) -> Took {
        Source::take(&mut **self, into)
    }
}
