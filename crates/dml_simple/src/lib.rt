//! The statements that stand in lines of a session and in steps of a program, from tokens to trees.
#![tactic(auto)]

mod plain;
mod selects;

pub use plain::simple;
