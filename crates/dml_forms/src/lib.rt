//! Forms of a language as data: which lists of tokens are of a form, which begin it, and at which
//! token a list is refused. Whoever reads a language states its grammar as such forms, one line a
//! rule, and takes from here that it has one tree and one place of refusal.
#![tactic(auto)]

mod laws;

pub use laws::{fronts_begin, heights_grow, is_answered, one_answer, one_tree};
