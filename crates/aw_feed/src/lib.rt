//! Listeners, and the feed that tells them each record of a workspace.
#![tactic(auto)]

mod feed;
mod listener;
mod mem_listener;
mod sure_listener;

pub use feed::{Feed, Listeners};
pub use listener::{Heard, Listener};
pub use mem_listener::MemListener;
pub use sure_listener::SureListener;
