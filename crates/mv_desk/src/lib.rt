//! Turns: threads share one machine by taking turns at a desk, and what they are answered is one legal
//! history (docs/SHARING.md, "Turns").
#![tactic(auto)]

mod desk;
mod facts;
mod history;
mod pass;
mod plays;
mod rule;
mod seats;
mod sequential;
mod tickets;
mod turns;
mod view;

pub use desk::{Desk, Unclosed, Unmade};
pub use facts::{DeskFacts, PassFacts};
pub use history::Call;
pub use pass::Pass;
pub use sequential::Sequential;
