//! Lists: a vector that contracts see as the list of its elements; the coordinates of cells; and the
//! count of the calls of a device that is to fail at some of them.
#![tactic(auto)]

mod coord;
mod failing;
mod laws;
mod list;

pub use coord::Coord;
pub use failing::FailingCalls;
pub use laws::{counts_rise, packing_keeps_order};
pub use list::List;
