use crate::body::Body;
use crate::patch::BodyPatch;

/// What a commit changes of an object: its number, and the patch of its latest body
/// (docs/SHARING.md, "Bodies and patches").
#[derive(Drop)]
pub struct Change {
    pub object: u16,
    pub patch: BodyPatch,
}

/// The generation of an object that a session has, by its number (docs/SHARING.md, "Generations").
#[derive(Clone, Copy, Debug, PartialEq, Eq)]
pub struct Seen {
    pub object: u16,
    pub number: u64,
}

/// The latest generation of an object: its number and its body (docs/SHARING.md, "Generations").
#[derive(Drop)]
pub struct Fresh {
    pub object: u16,
    pub number: u64,
    pub body: Body,
}
