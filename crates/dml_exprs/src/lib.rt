//! Expressions, targets and lists of names and texts, from tokens to trees.
#![tactic(auto)]

mod exprs;
mod held;
mod targets;

pub use exprs::expr;
pub use held::{followed, with};
pub use targets::{names, target, texts};
