//! What an object that is kept holds, and the patches that make one body of another
//! (docs/SHARING.md, "Bodies and patches").
#![tactic(auto)]

mod applying;
mod body;
mod change;
mod fitting;
mod laws;
mod merging;
mod patch;

pub use applying::{apply, compose, difference};
pub use body::Body;
pub use change::{Change, Fresh, Seen};
pub use fitting::fits;
pub use laws::{composed_does_both, difference_gives_newer};
pub use patch::BodyPatch;
