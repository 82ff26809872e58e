//! Hierarchies: which value of a dimension is the parent of which, its children, and the leaves below it.
#![tactic(auto)]

mod clearing;
mod fault;
mod hierarchy;
mod laws;
mod leaves;
mod tables;

pub use fault::RelFault;
pub use hierarchy::Hierarchy;
pub use laws::leaves_are_of_one_child;
