ghost use Rattle.std.specs.Prelude.{◌≡◌, ◌↔◌, ◌≤◌, ℕ, List, length, Option, IfSome, IsTrue};
ghost use Rattle.aw_feed.specs.Listener.{Note, Hears, goes_at};

/// The answer of [`Listener::commit`].
#[derive(Clone, Copy, Debug, PartialEq, Eq)]
pub enum Heard {
    /// The listener has the record, and waits for the next.
    Stay,
    /// The listener doesn't have it, and wants no more.
    Gone,
}

/// Who is told each record of a workspace (docs/SHARING.md, "Listeners").
///
/// `told` is the notes for which it stayed, each a number with a payload, or `None` where it
/// doesn't tell them. `last` is the least number at which it goes, or that there is none; the outer
/// `None` where it doesn't tell that.
pub trait Listener: Drop {
    ghost told: { Self → Option (List Note) };

    ghost last: { Self → Option (Option ℕ) };

    /// Hears of a record: its number from 1, and its payload of 1 to 2^26 bytes.
    fn commit(&mut self, number: u64, payload: &[u8]) -> Heard
        requires some { 1 ≤ length payload.now }
        requires within { length payload.now ≤ 67108864 }
        ensures told { Hears result (told self.old) (told self.new) (number, payload.now) }
        ensures goes { IfSome (last self.old) (λ last. (result ≡ Heard.Gone) ↔ IsTrue (goes_at last number)) }
        ensures keeps { last self.new ≡ last self.old };
}

impl<L: Listener> Listener for &mut L {
    ghost told = { λ listener. L.told listener.now };

    ghost last = { λ listener. L.last listener.now };

    fn commit(&mut self, number: u64, payload: &[u8]) -> Heard {
        Listener::commit(&mut **self, number, payload)
    }
}

impl Listener for Box<dyn Listener> {
    ghost told = { λ listener. (Listener-box listener).told listener.value };

    ghost last = { λ listener. (Listener-box listener).last listener.value };

    fn commit(&mut self, number: u64, payload: &[u8]) -> Heard {
        (**self).commit(number, payload)
    }
}
