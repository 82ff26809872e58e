ghost use Rattle.std.specs.Prelude.{◌≡◌};

/// A machine that takes one entry after another.
pub trait Sequential {
    /// What it is asked.
    type Entry;

    /// What it answers.
    type Reply;

    /// What one entry may do: the state before, the entry, the reply, and the state afterwards, with
    /// all that the machine owns outside itself. It is a relation, so that a machine may refuse freely.
    ghost step: { Self → Self.Entry → Self.Reply → Self → Type 0 };

    /// Takes an entry and answers it.
    fn act(&mut self, entry: &Self::Entry) -> Self::Reply
        ensures { step self.old entry.now result self.new };
}
