//! Code of typed expressions.
#![tactic(auto)]

mod compiling;
mod draft;
mod emitting;
mod formulas;
mod laws;
mod moving;
mod naming;
mod objects;

pub use compiling::compile;
pub use formulas::{Formula, Formulas};
pub use laws::accepted_expressions_have_code;
