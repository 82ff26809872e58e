//! Which values of a dimension are selected, and in which order: its status.
#![tactic(auto)]

mod fault;
mod laws;
mod marks;
mod status;

pub use fault::StatusFault;
pub use laws::{
    adding_never_repeats, complement_of_complement, keeping_and_removing_part,
    keeping_keeps_the_order, rules_select_values,
};
pub use status::Status;
