//! The shared state of a workspace on a disk: what is committed survives, whatever moment a crash
//! comes (docs/SHARING.md, docs/FORMATS.md).
#![tactic(auto)]

pub mod laws;
mod record_log;
mod replay;
mod store;
mod threads;

pub use aw_journal::LoadFault;
pub use std::alloc::AllocError as NoMemory;
pub use store::{Store, StoreFault};
