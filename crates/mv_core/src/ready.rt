ghost use Rattle.std.specs.Prelude.{◌≡◌};
ghost use Rattle.mv_core.specs.Prepared.{makes};

use crate::entry::Reply;
use aw_body::Fresh;
use aw_lists::List;
use std::marker::Model;

/// What is to be done to the objects for an entry that is granted.
#[derive(Drop)]
pub enum Todo {
    /// The objects stay as they are.
    Nothing,
    /// The session takes these objects.
    Take {
        who: u32,
        objects: List<u16>,
    },
    /// These generations become the latest ones of their objects, and then the session gives up `leave`.
    Renew {
        who: u32,
        made: List<Fresh>,
        leave: List<u16>,
    },
    /// The session gives up those of these objects that it owns.
    Free {
        who: u32,
        objects: List<u16>,
    },
    /// The session gives up all that it owns.
    FreeAll {
        who: u32,
    },
}

/// What an entry will be answered and what will be done for it, with all memory that this takes
/// (docs/SHARING.md).
#[derive(Drop)]
pub struct Ready {
    reply: Reply,
    todo: Todo,
}

impl Model for Ready {
    ghost use Rattle.mv_core.specs.Prepared.{Prepared};

    ghost Value = { Prepared };

    ghost view = { λ ready. record { reply = ready.reply; todo = ready.todo } };
}

impl Ready {
    /// A reply, and what is to be done with it.
    pub(crate) fn new(reply: Reply, todo: Todo) -> Ready
        ensures { result ≡ record { reply = reply; todo = todo } }
    {
        Ready { reply, todo }
    }

    /// The reply, and what is to be done.
    pub(crate) fn into_parts(self) -> (Reply, Todo)
        ensures { result ≡ (self.reply, self.todo) }
    {
        let Ready { reply, todo } = self;
        (reply, todo)
    }

    /// Whether it will make new generations: its entry is a `Commit` with changes, and is granted.
    pub fn writes(&self) -> bool
        ensures { result ≡ makes self.now.todo }
    {
        match &self.todo {
            Todo::Renew { made, .. } => !made.is_empty(),
            _ => false,
        }
    }
}
