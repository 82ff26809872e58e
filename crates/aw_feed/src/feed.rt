ghost use Rattle.std.specs.Prelude.{◌≡◌, ◌≤◌, List, [], ◌∷◌, map, length, IfSome, not, if◌then◌else◌};
ghost use Rattle.aw_feed.specs.Listener.{Hears, goes_at};
ghost use Rattle.aw_feed.specs.Feed.{Listening, HaveHeard};

use crate::listener::{Heard, Listener};

/// What contracts see of the listeners of a feed, in order.
pub trait Listeners {
    ghost listening: { Self → List Listening };
}

/// The listeners of a workspace, in order (docs/SHARING.md, "Listeners").
#[derive(Drop)]
pub struct Feed {
    listeners: Vec<Box<dyn Listener>>,
}

impl Listeners for Feed {
    ghost listening = { λ feed. map (λ listener. record { told = (Listener-box listener).told listener.value; last = (Listener-box listener).last listener.value }) feed.listeners.items };
}

impl Feed {
    /// A feed with these listeners. Takes no memory.
    pub fn new(listeners: Vec<Box<dyn Listener>>) -> Feed
        ensures { ⟦<Feed as Listeners>⟧.listening result ≡ map (λ listener. record { told = told listener; last = last listener }) listeners.items }
    {
        Feed { listeners }
    }

    /// Tells each listener once, in order, of a record: its number, and its payload of 1 to 2^26
    /// bytes. One that answers that it goes is dropped. Takes no memory.
    pub fn tell(&mut self, number: u64, payload: &[u8])
        requires some { 1 ≤ length payload.now }
        requires within { length payload.now ≤ 67108864 }
        ensures { HaveHeard ((number, payload.now) ∷ []) (⟦<Feed as Listeners>⟧.listening self.old) (⟦<Feed as Listeners>⟧.listening self.new) }
    {
        self.listeners.retain_mut(
            move |listener| -> bool
                requires some { 1 ≤ length payload.now }
                requires within { length payload.now ≤ 67108864 }
                ensures hears { Hears (if result then Heard.Stay else Heard.Gone) (told listener.entry.now) (told listener.exit.now) (number, payload.entry.now) }
                ensures goes { IfSome (last listener.entry.now) (λ last. result ≡ not (goes_at last number)) }
                ensures keeps { last listener.exit.now ≡ last listener.entry.now }
            { listener.commit(number, payload) == Heard::Stay },
        );
    }
}
