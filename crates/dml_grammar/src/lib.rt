//! The grammar of statements and definitions with its limits: that it has one tree for each list of
//! tokens, which tokens keep the limits, and how a refusal is told.
#![tactic(auto)]

mod fault;
mod laws;
mod limits;
mod placed;
mod placing;
mod refusals;
mod sorts;
mod telling;

pub use fault::{Fault, ParseFault};
pub use laws::{each_list_is_answered, one_refusal, one_tree};
pub use limits::{Counts, kept};
pub use placed::Placed;
pub use placing::{place_block, place_line};
pub use refusals::{Refusal, settled};
pub use sorts::{is_among, is_of, is_symbol_among, is_word_among};
pub use telling::{definition_fault, statement_fault};
