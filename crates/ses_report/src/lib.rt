//! What a line of a script is answered, as it is printed: lines of output, and a refusal.
#![tactic(auto)]

mod refusal;
mod report;

pub use refusal::{Detail, Refusal};
pub use report::{append_error, append_output, error_line, show};
pub use std::alloc::AllocError as NoMemory;
