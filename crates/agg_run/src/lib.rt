//! Aggregation of a variable's cells along the hierarchies of an aggregation map.
#![tactic(auto)]

mod aggregation;
mod fault;
mod folding;
mod laws;
mod levels;
mod opening;
mod pass;
mod sharing;

pub use aggregation::aggregate;
pub use fault::AggFault;
pub use laws::sums_are_over_leaves;
