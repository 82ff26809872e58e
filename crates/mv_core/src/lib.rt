//! The shared state of a workspace: the latest generation of each object, and who owns it
//! (docs/SHARING.md). It knows no disk, no thread and no text.
#![tactic(auto)]

mod asking;
mod changing;
mod entry;
mod laws;
mod object;
mod opening;
mod preparing;
mod ready;
mod settling;
mod shared;

pub use aw_body::{Change, Fresh, Seen};
pub use entry::{Entry, Reply};
pub use laws::{
    acquire_is_all_or_nothing, commit_changes_what_it_names, owner_keeps_until_it_gives_up,
};
pub use object::Object;
pub use ready::Ready;
pub use shared::Shared;
pub use std::alloc::AllocError as NoMemory;
