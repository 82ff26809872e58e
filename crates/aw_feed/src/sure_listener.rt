ghost use Rattle.std.specs.Prelude.{◌≡◌, ◌↔◌, ◌≤◌, None, Some, length, IsTrue};
ghost use Rattle.aw_feed.specs.Listener.{Hears, goes_at};

use crate::listener::{Heard, Listener};
use std::marker::Model;

/// A listener that keeps nothing and takes no memory. It tells when it goes, and not what it was
/// told.
#[derive(Debug, Drop)]
pub struct SureListener {
    last: Option<u64>,
}

impl Model for SureListener {
    ghost use Rattle.std.specs.Prelude.{ℕ, Option};

    ghost Value = { Option ℕ };

    ghost view = { λ listener. listener.last };
}

impl SureListener {
    /// A listener that goes from the number `last` on, or never.
    pub fn new(last: Option<u64>) -> SureListener
        ensures { result ≡ last }
    {
        SureListener { last }
    }
}

impl Listener for SureListener {
    ghost told = { λ _. None };

    ghost last = { λ listener. Some listener };

    fn commit(&mut self, number: u64, payload: &[u8]) -> Heard
        requires some { 1 ≤ length payload.now }
        requires within { length payload.now ≤ 67108864 }
        ensures told { Hears result None None (number, payload.now) }
        ensures goes { (result ≡ Heard.Gone) ↔ IsTrue (goes_at self.old number) }
        ensures keeps { self.new ≡ self.old }
    {
        match self.last {
            Some(least) if least <= number => Heard::Gone,
            _ => Heard::Stay,
        }
    }
}
