//! The values of a dimension in their order, each with its name and its slot.
#![tactic(auto)]

mod change;
mod dimension;
mod fault;
mod index;
mod laws;
mod making;

pub use dimension::Dimension;
pub use fault::DimFault;
pub use laws::slots_are_never_given_again;
