//! Statements and definitions: from the tokens of lines to their trees, or to the first token with
//! which they begin nothing.
#![tactic(auto)]

mod blocks;
mod definitions;
mod heads;
mod lines;
mod maps;
mod programs;
mod statements;

pub use definitions::definition;
pub use dml_grammar::ParseFault;
pub use statements::statement;
