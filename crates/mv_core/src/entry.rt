use aw_body::{Change, Fresh, Seen};
use aw_lists::List;

/// What a session asks of the shared state (docs/SHARING.md). `who` is the session's number, and objects
/// are named by theirs.
#[derive(Drop)]
pub enum Entry {
    /// Asks for the latest generation of every kept object.
    Attach {
        who: u32,
    },
    /// Asks to own the objects of `keep` and of `fresh`, all or none. Of those of `keep` and `same` the
    /// session has these generations, which must be the latest; it asks for the latest of `fresh`.
    Acquire {
        who: u32,
        keep: List<Seen>,
        fresh: List<u16>,
        same: List<Seen>,
    },
    /// Asks for the latest generations of these objects.
    Resync {
        who: u32,
        objects: List<u16>,
    },
    /// Makes new generations, and gives up the objects of `leave`. The changes stand by rising object.
    Commit {
        who: u32,
        changes: List<Change>,
        leave: List<u16>,
    },
    /// Gives up these objects.
    Release {
        who: u32,
        objects: List<u16>,
    },
    /// Gives up all that the session owns.
    Detach {
        who: u32,
    },
}

/// What the shared state answers (docs/SHARING.md).
#[derive(Drop)]
pub enum Reply {
    /// The latest generation of every kept object, in order of definition.
    Attached(List<Fresh>),
    /// The session owns the objects that it asked to own; these are the latest generations of `fresh`.
    Acquired(List<Fresh>),
    /// The latest generations of the objects, as they were named.
    Resynced(List<Fresh>),
    /// Each changed object has a new generation, and what was to be left is given up.
    Committed,
    /// The objects are given up.
    Released,
    /// All is given up.
    Detached,
    /// Another session owns the object.
    Owned { object: u16, by: u32 },
    /// The object's latest generation is newer than the session's.
    Newer { object: u16, number: u64 },
    /// The object isn't kept; or it isn't the session's, or its change is out of order or doesn't fit.
    Stranger { object: u16 },
    /// The object has the last generation that can be numbered.
    Worn { object: u16 },
    /// The record of the commit would have so many bytes, which are too many. Only a store answers so.
    TooLarge { bytes: u64 },
    /// The disk failed, and no change is made. Only a store answers so.
    Fault,
    /// There was no memory for the reply.
    NoMemory,
}
