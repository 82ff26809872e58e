//! A workspace on a disk, for the words of the command line: it is opened, made and dumped
//! (docs/FORMATS.md, "The texts of a workspace").
#![tactic(auto)]

mod dumping;
mod line;
mod making;
mod objects;
mod opening;
mod saying;

pub use dumping::dump;
pub use making::make;
pub use opening::{Unopened, open};
