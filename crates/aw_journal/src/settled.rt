ghost use Rattle.std.specs.Prelude.{◌≡◌, ℕ, List, [], ◌∷◌, ◌++◌};
ghost use Rattle.std.specs.Borrow.{ftrue};

use std::marker::{Model, PhantomData};

/// The settled payloads of a journal. It takes no memory, and only clauses read it: the invariant of
/// `Journal` says what they have to do with the disk.
#[derive(Drop)]
pub struct Settled {
    marker: PhantomData<u8>,
    pub ghost payloads: { List (List ℕ) },
}

impl Model for Settled {
    ghost also_owns = { λ _. ftrue };
}

impl Settled {
    /// No payload.
    pub fn none() -> Settled
        ensures { result.payloads ≡ [] }
    {
        Settled {
            marker: PhantomData,
        }
    }

    /// One payload more.
    pub fn push(&mut self, _payload: &[u8])
        ensures { self.new.payloads ≡ self.old.payloads ++ _payload.now ∷ [] }
    {}
}

// It owns nothing.
unsafe impl Send for Settled {}

unsafe impl Sync for Settled {}
