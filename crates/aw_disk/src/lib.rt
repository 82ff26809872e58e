//! Disks and what a crash may leave of them: a disk in memory that fails at listed calls and keeps
//! all its moments, one that never fails, and a file.
#![tactic(auto)]

mod disk;
mod file_disk;
mod laws;
mod mem_disk;
mod opening;
mod placing;
mod replay;
mod step;
mod sure_disk;
mod threads;

pub use disk::{Disk, Failed};
pub use file_disk::FileDisk;
pub use laws::crashes_leave_what_is_covered;
pub use mem_disk::MemDisk;
pub use std::alloc::AllocError as NoMemory;
pub use step::{Pick, Step};
pub use sure_disk::SureDisk;
