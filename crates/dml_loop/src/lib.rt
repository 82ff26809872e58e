//! Code run over combinations of slots, in loop order: what an assignment stores, and what is shown.
#![tactic(auto)]

mod conversion;
mod count;
mod evaluation;
mod fault;
mod first;
mod fixes;
mod laws;
mod list;
mod places;
mod reading;
mod wheel;

pub use conversion::Target;
pub use count::count_within;
pub use evaluation::assigned;
pub use fault::LoopFault;
pub use first::{first_place, shown};
pub use fixes::{Slots, fixed_slots};
pub use laws::{each_place_is_assigned, first_refusal_decides, places_are_the_product};
pub use list::DimensionList;
pub use places::Places;
pub use reading::Reading;
