//! The tokens of a line or a block that are still to be read, and what each single token stands for.
#![tactic(auto)]

mod cursor;
mod values;

pub use cursor::Tokens;
