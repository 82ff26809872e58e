//! What a session reads and writes by expressions: their values over its view, what SHOW prints, and
//! what an assignment writes.
#![tactic(auto)]

mod evaluating;
mod holding;
mod laws;
mod reader;
mod selecting;
mod target;

pub use evaluating::{assigned, shown};
pub use laws::{assignments_write_their_loop, fixed_values_come_first};
pub use target::AssignedTo;
