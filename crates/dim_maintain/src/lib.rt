//! What MAINTAIN makes of the values of a dimension.
#![tactic(auto)]

mod causes;
mod changing;
mod fault;
mod laws;
mod maintaining;
mod placing;

pub use fault::MaintainFault;
pub use laws::{added_slots, first_causes, moved_slots, new_slot_again, renamed_slots};
pub use maintaining::{added, deleted, moved, renamed};
