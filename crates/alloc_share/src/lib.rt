//! The shares of an amount that goes down from a value to its children.
#![tactic(auto)]

mod fault;
mod laws;
mod parts;
mod places;
mod sharing;

pub use fault::ShareFault;
pub use laws::{
    all_in_range, copies_are_whole, equal_weights_share_evenly, one_share_differs, shares_add_up,
    shares_mirror,
};
pub use sharing::shares;
