//! Aggregation maps: along which relations an aggregation or an allocation goes, and how.
#![tactic(auto)]

mod checking;
mod fault;
mod laws;
mod line;
mod map;
mod reading;

pub use fault::MapFault;
pub use laws::{maps_have_lines, texts_define_maps};
pub use line::MapLine;
pub use map::AggMap;
