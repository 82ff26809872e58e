//! What a line of a session says, and what the lines of a definition say.
#![tactic(auto)]

mod reading;

pub use dml_grammar::ParseFault;
pub use reading::{definition_in, statement_in};
