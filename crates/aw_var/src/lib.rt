//! Variables: finite maps from coordinates to cells, kept in pages that copies share; and the patches
//! that make one of another.
#![tactic(auto)]

mod fault;
mod going;
mod laws;
mod numbered;
mod patching;
mod sheet;
mod variable;
mod walk;

pub use fault::VarFault;
pub use going::CellIter;
pub use laws::{
    composed_does_both, difference_gives_newer, difference_tells_apart, overwritten_is_map,
};
pub use variable::{Patch, Variable};
