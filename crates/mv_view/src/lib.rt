//! A session's view of the workspace: of each object that is kept a generation, and the bodies that the
//! session would commit and that it reads (docs/SHARING.md, "A session's view").
#![tactic(auto)]

mod attaching;
mod comparing;
mod fault;
mod gathering;
mod kept;
mod laws;
mod owned;
mod places;
mod threads;
mod view;
mod writing;

pub use fault::ViewFault;
pub use laws::{
    acquiring_fits, attaching_fits, changes_are_what_is_staged, changes_may_be_committed,
    committing_fits, nothing_is_left_staged, others_keep_the_fit, own_calls_keep_the_fit,
    releasing_fits, resyncing_fits, revert_gives_back, what_is_private_is_not_committed,
    writes_those_cells,
};
pub use view::View;
