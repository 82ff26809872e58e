//! A journal of payloads on a disk that may crash at any moment.
#![tactic(auto)]

mod doubt;
mod fault;
mod formatting;
mod gate;
mod journal;
pub mod laws;
mod payload;
mod put;
mod read;
mod settled;
mod threads;

pub use fault::{FormatFault, LoadFault};
pub use formatting::format;
pub use journal::{DiskFault, Journal};
pub use payload::Payload;
pub use std::alloc::AllocError as NoMemory;
